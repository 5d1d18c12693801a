// `lidnoise`: a small lid on standard input, its noise in two lines on standard output; on standard error why there is no
// figure, and what could not be read or written.
#![tactic(auto)]

fn main(rt: HostRuntime) {
    let mut room = [0; lid_bytes::INPUT_BYTES];
    let input = streams::read_input(
        &rt,
        "lidnoise",
        "a lid from standard input: lidnoise <FILE",
        &mut room,
    );
    let said = lid::lidnoise(input);
    streams::write_all(&rt, "lidnoise", said.output.as_str(), said.remark.as_str());
}
