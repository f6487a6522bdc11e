// Words and numbers on standard output. What isn't written is missed where the output is compared.

pub fn text(rt: HostRuntime, words: &[u8]) {
    let _ = rt.stdout().write_all(words);
}

pub fn say(rt: HostRuntime, label: &[u8], n: usize) {
    text(rt, label);
    let _ = rt.print(n);
}

pub fn line(rt: HostRuntime) {
    text(rt, b"\n");
}
