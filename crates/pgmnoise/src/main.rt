// `pgmnoise`: a small grey file on standard input, its noise in two lines on standard output; on standard error why there is no
// figure, and what could not be read or written.
#![tactic(auto)]

fn main(rt: HostRuntime) {
    let mut room = [0; grey::INPUT_BYTES];
    let input = streams::read_input(
        &rt,
        "pgmnoise",
        "a grey file from standard input: pgmnoise <FILE",
        &mut room,
    );
    let said: lid::Said<_> = grey::pgmnoise(input);
    streams::write_all(&rt, "pgmnoise", said.output.as_str(), said.remark.as_str());
}
