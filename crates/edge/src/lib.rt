// The edge call: uncertainty.rs, `edge_width`.
#![tactic(auto)]

ghost use Rattle.std.specs.Prelude.{◌≡◌};
ghost use Rattle.edge.specs.Edge.{edge};

use imageview::ImageView;
use tile::{EdgeWidth, PixelTile};

// The width of the edges of a view about the centre, or the first of 1, 2, 8, 9 that applies.
pub fn edge_width(img: ImageView, centre: [i32; 2]) -> EdgeWidth
    ensures { result ≡ edge img.entry.pixels.now img.entry.width img.entry.height img.entry.origin centre }
{
    match PixelTile::load(img, centre) {
        Ok(tile) => tile.edge_width(),
        Err(why) => EdgeWidth::Refused(why),
    }
}

// The same for a caller that has no view: slice, sides and origin apart, as C lends them.
pub fn view_edge_width(
    pixels: &[u8],
    width: usize,
    height: usize,
    origin: [i32; 2],
    centre: [i32; 2],
) -> EdgeWidth
    ensures { result ≡ edge pixels.now width height origin centre }
{
    edge_width(
        ImageView::with_origin(width, height, pixels, origin),
        centre,
    )
}
