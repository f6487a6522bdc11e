// What is written of an answer, and of a room after it. What isn't written is missed where the output is compared.
ghost use Rattle.std.specs.Prelude.{◌<◌};

use wire::lend;

pub fn put(rt: HostRuntime, words: &[u8]) {
    let _ = rt.stdout().write_all(words);
}

// Done with a value, or a refusal and its place.
pub fn answer(rt: HostRuntime, answer: u64) {
    let number = answer / 4294967296;
    let value = answer % 4294967296;
    let _ = match number {
        0 => print!(rt; ": done {value}"),
        _ => print!(rt; ": {number} at {value}"),
    };
}

// The text that a room begins with, on lines of its own.
pub fn text(rt: HostRuntime, answer: u64, room: &[u8]) {
    if answer < 4294967296 {
        put(rt, b"\n");
        put(rt, lend::front(room, answer as usize));
    }
}

// Every number of a room.
pub fn all(rt: HostRuntime, room: &[u64]) {
    for n in room {
        let _ = print!(rt; " {n}");
    }
}

// A running sum with one number more.
fn mix(sum: u64, n: u64) -> u64
    ensures { result < 2147483648 }
{
    (sum % 2147483648 * 31 + n % 2147483648) % 2147483648
}

// All numbers of a room in one.
pub fn sum<T: Copy>(rt: HostRuntime, room: &[T])
where
    u64: From<T>,
{
    let sum = room.iter().fold(7, |sum, n| mix(sum, u64::from(*n)));
    let _ = print!(rt; " sum {sum}");
}

// A running sum with both halves of a number more.
fn mix_halves(sum: u64, n: u64) -> u64
    ensures { result < 2147483648 }
{
    mix(mix(sum, n / 4294967296), n % 4294967296)
}

// The same, both halves of each.
pub fn sum_halves(rt: HostRuntime, room: &[u64]) {
    let sum = room.iter().fold(7, |sum, n| mix_halves(sum, *n));
    let _ = print!(rt; " sum {sum}");
}
