// What is measured of a window.
#![tactic(auto)]

#[derive(Drop)]
pub struct WindowStats {
    // component (0, 0)
    pub sum: i32,
    pub gate: i32,
    // component (3, 3)
    pub op: i32,
}
