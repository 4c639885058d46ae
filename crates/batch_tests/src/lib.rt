// What is tested of a batch before its first write: refusal 18, and whether refusals 1 and 2 have to be tried again between the writes.
#![tactic(auto)]

ghost use Rattle.std.specs.Prelude.{◌≡◌};
ghost use Rattle.rules.specs.Batch.{batch_wrong};
ghost use Rattle.batch_tests.specs.Tests.{extents_counted, ExtentsPlaced, TellsAgain};

use triples::TRIPLE_BYTES;

// Whether the list is refused by 18.
#[tactic(auto, unfolding(rules::specs::Batch::batch_wrong))]
pub fn batch_wrong(list: &[u8], bytes: &[u8]) -> bool
    ensures { result ≡ batch_wrong list.now bytes.now }
{
    triples::list_wrong(list)
        || triples::length_over(list)
        || triples::lengths_differ(list, bytes.len())
}

// Whether the tests have to be made again between the writes of a list: they have where a block is shared. Of one write nothing is looked at, as there is
// no between.
pub fn tests_again(head: &[u8], extents: &[u8], list: &[u8]) -> bool
    requires { ExtentsPlaced head.now extents.now }
    ensures { TellsAgain result list.now (extents_counted head.now extents.now) }
{
    list.len() <= TRIPLE_BYTES
        || sharing::shared_blocks(extents, format::head::decode_head(head).extents as usize)
}
