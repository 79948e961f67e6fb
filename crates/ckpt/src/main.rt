// The text program. Its stdin and stdout are document 01's listing.
#![tactic(auto)]

fn main(rt: HostRuntime) {
    let mut from = rt.stdin();
    let mut to = rt.stdout();
    program::run(&mut from, &mut to);
}
