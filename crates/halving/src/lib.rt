// The search by halves (binary search) in a book of records that begin with a key. In each round it looks at the one record in the middle of what is left,
// and that record leaves the range: of n places at most half are left, so that the 1,048,575 that a book may have take at most 20 rounds. The object is
// tested with the key, so that nothing is looked at again in the end. All of this holds for any book; what the answer means, for ordered ones.
#![tactic(auto)]

ghost use Rattle.std.specs.Prelude.{◌≡◌, ◌+◌, ◌-◌, ◌*◌, ◌≤◌, eqb, length};
ghost use Rattle.rules.specs.Lists.{pick◌then◌else◌};
ghost use Rattle.rules.specs.Bytes.{be, part};
ghost use Rattle.rules.specs.Sizes.{most_places};
ghost use Rattle.format.specs.Records.{key_bytes};
ghost use Rattle.halving.specs.Halving.{looked, ends_at};
ghost use Rattle.halving.specs.Keys.{reaches, reached, owned_before};

use format::key::NUMBER_AT;

// Where a search ended: how many records it puts before the key or at it, the place of the last of those if it is one of the object, and in how many
// rounds.
#[derive(Clone, Copy)]
pub struct Halved {
    pub place: usize,
    pub found: Option<usize>,
    pub rounds: u32,
}

// What one look at a record says: whether it stands before the key or at it, and whether it is one of the object.
// Kept: two tests that do not depend on each other, so that no Option has both.
#[derive(Clone, Copy)]
struct Seen {
    reached: bool,
    same: bool,
}

// The record at `at` held against the key of `object` and `number`; `equal` says whether the key itself is reached.
fn look(s: &[u8], at: usize, object: u64, number: u64, equal: bool) -> Seen
    requires { at + key_bytes ≤ length s.now }
    ensures reached_value { result.reached ≡ reaches equal object number (be (part at 8 s.now)) (be (part (at + 9) 8 s.now)) }
    ensures same_value { result.same ≡ eqb (be (part at 8 s.now)) object }
{
    let a = words::be64(s, at);
    if a != object {
        return Seen {
            reached: a < object,
            same: false,
        };
    }
    let b = words::be64(s, at + NUMBER_AT);
    if b != number {
        return Seen {
            reached: b < number,
            same: true,
        };
    }
    Seen {
        reached: equal,
        same: true,
    }
}

// Where in a book of `n` records of `width` bytes those before the key of `object` and `number`, or at it where `equal` says so, end.
pub fn halve(s: &[u8], width: usize, n: usize, object: u64, number: u64, equal: bool) -> Halved
    requires { (key_bytes ≤ width) × (width * n ≤ length s.now) }
    ensures place_value { result.place ≡ ends_at (reached equal object number width s.now) 0 (looked (reached equal object number width s.now) n) }
    ensures found_value { result.found ≡ (pick owned_before object width s.now result.place then Some (result.place - 1) else None) }
    ensures rounds_value { result.rounds ≡ length (looked (reached equal object number width s.now) n) }
    ensures rounds_bound { n ≤ most_places → result.rounds ≤ 20 }
{
    let mut low = 0;
    let mut high = n;
    let mut same = false;
    let mut rounds = 0;
    while low < high {
        let middle = low + (high - low) / 2;
        let l = look(s, width * middle, object, number, equal);
        rounds += 1;
        if l.reached {
            low = middle + 1;
            same = l.same;
        } else {
            high = middle;
        }
    }
    Halved {
        place: low,
        found: if same { Some(low - 1) } else { None },
        rounds,
    }
}
