// The call of many reads, refusals 1 and 2 past: the list tested, all its reads checked, and only then their bytes handed out.
#![tactic(auto)]

ghost use Rattle.std.specs.Prelude.{◌≡◌, ◌/◌, ◌≤◌, length};
ghost use Rattle.rules.specs.Triples.{triple_bytes, most_triples, decode_triples, lengths_of};
ghost use Rattle.rules.specs.ReadMany.{reads_wrong};
ghost use Rattle.format.specs.Refusals.{number_in, count_in};
ghost use Rattle.read.specs.Gives.{gives, ReadReady};
ghost use Rattle.read_checks.specs.Reads.{looked};
ghost use Rattle.read_many.specs.Many.{gives_all, gives_many};

use format::refusal::Refusal;
use triples::MOST_TRIPLES;

// Whether the list is refused by 17.
#[tactic(auto, unfolding(rules::specs::ReadMany::reads_wrong))]
fn reads_wrong(list: &[u8], out: &[u8]) -> bool
    ensures { result ≡ reads_wrong list.now out.now }
{
    triples::list_wrong(list) || triples::lengths_exceed(list, out.len())
}

// The reads of a list that is right, with the room for the sizes of their files. The answer is the number of inspections that were made.
fn read_all(
    image: &[u8],
    head: &[u8],
    cards: &[u8],
    extents: &[u8],
    groups: &[u8],
    list: &[u8],
    sizes: &mut [u64],
    out: &mut [u8],
) -> Result<u64, Refusal>
    requires read_ready { ReadReady image.now head.now cards.now extents.now groups.now }
    requires triple_bytes_len_bound { (length list.now / triple_bytes ≤ most_triples) × (length sizes.old ≡ most_triples) }
    requires list_in_bounds { lengths_of (decode_triples list.now) ≤ length out.old }
    ensures { gives (number_in result) (count_in result) out.new ≡ gives_all (looked image.now head.now extents.now groups.now) cards.now (decode_triples list.now) out.old }
{
    let made = read_checks::check_list(image, head, cards, extents, groups, list, sizes)?;
    let h = format::head::decode_head(head);
    pieces::hand_out_pieces(image, extents, h.extents as usize, list, sizes, out);
    Ok(made)
}

// The reads of a list, each into its piece of `out`. The answer is the number of different units that they touch.
pub fn read_many(
    image: &[u8],
    head: &[u8],
    cards: &[u8],
    extents: &[u8],
    groups: &[u8],
    list: &[u8],
    out: &mut [u8],
) -> Result<u64, Refusal>
    requires { ReadReady image.now head.now cards.now extents.now groups.now }
    ensures { gives (number_in result) (count_in result) out.new ≡ gives_many (looked image.now head.now extents.now groups.now) cards.now list.now out.old }
{
    if reads_wrong(list, out) {
        return Err(Refusal::BadReads);
    }
    let mut sizes = [0u64; MOST_TRIPLES];
    read_all(image, head, cards, extents, groups, list, &mut sizes, out)
}
