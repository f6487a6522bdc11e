// Clocks: times of 1904, and a zone's minutes, which may be negative.
#![tactic(auto)]

ghost use Rattle.std.specs.Prelude.{◌≡◌, ◌+◌, ◌^◌, ◌<◌};
ghost use Rattle.clocks.specs.Clocks.{order_number, zoned_of};
ghost use Rattle.clocks.specs.Zones.{Near, leaves as leaves_of, compared};

// A zone in seconds, of which one number is 0.
#[derive(Clone, Copy)]
pub struct Zone {
    pub ahead: usize,
    pub behind: usize,
}

// What the first of two times is: the definitions' own words, in place of std's Less, Equal and Greater.
#[derive(Clone, Copy, Debug, PartialEq, Eq)]
pub enum Order {
    Earlier,
    Same,
    Later,
}

// An order as a number: 0 earlier, 1 same, 2 later.
impl From<Order> for usize {
    ghost from_gives = { λ order r. r ≡ order_number order };

    fn from(order: Order) -> usize {
        match order {
            Order::Earlier => 0,
            Order::Same => 1,
            Order::Later => 2,
        }
    }
}

// The zone of so many minutes, where it is one. The one function that looks at a sign.
pub fn zone_of(z: i64) -> Option<Zone>
    ensures { result ≡ zoned_of z }
{
    if z < -840 {
        return None;
    }
    if 840 < z {
        return None;
    }
    if z < 0 {
        let behind = (-z) as usize;
        return Some(Zone {
            ahead: 0,
            behind: 60 * behind,
        });
    }
    let ahead = z as usize;
    Some(Zone {
        ahead: 60 * ahead,
        behind: 0,
    })
}

// Whether a time may be shifted.
pub fn leaves(t: usize, zone: Zone) -> bool
    requires { (Near zone) × (t < 2 ^ 32) }
    ensures { result ≡ leaves_of zone t }
{
    if t == 0 {
        return true;
    }
    let up = t + zone.behind;
    zone.ahead < up && up - zone.ahead <= 4294967295
}

// Two times, each less its clock's zone.
pub fn compare(m: usize, y: Zone, n: usize, z: Zone) -> Order
    requires { (Near y) × (Near z) × (m < 2 ^ 32) × (n < 2 ^ 32) }
    ensures { result ≡ compared m y n z }
{
    let a = m + y.behind + z.ahead;
    let b = n + z.behind + y.ahead;
    if a < b {
        return Order::Earlier;
    }
    if a == b {
        return Order::Same;
    }
    Order::Later
}
