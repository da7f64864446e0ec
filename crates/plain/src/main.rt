#![tactic(auto)]

fn main(rt: HostRuntime) {
    player::run(rt);
}
