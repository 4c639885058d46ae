// A batch of writes, refusals 1 and 2 past: the list tested, and then its writes one after another, each as a call of its own on the store that the one
// before left.
//
// A call tries refusals 1 and 2 first, and so does each write here; but a store that passes them, and maps no block at two places, is left such a store by
// every write. So where no block is shared the tests are not made again.
#![tactic(auto)]

ghost use Rattle.std.specs.Prelude.{◌≡◌, false, ◌/◌, ◌≤◌, length};
ghost use Rattle.rules.specs.Store.{StoreBytes, decode};
ghost use Rattle.rules.specs.Triples.{triple_bytes, most_triples, decode_triples, lengths_of};
ghost use Rattle.rules.specs.Batch.{batch_from};
ghost use Rattle.rules.proofs.PassLaws.{Passes};
ghost use Rattle.format.specs.Refusals.{number_in};
ghost use Rattle.lent.specs.Lent.{store_of, SamePlaces};
ghost use Rattle.history.proofs.UnsharedLaws.{Unshared};
ghost use Rattle.intake.specs.Join.{store_number};
ghost use Rattle.batch_tests.specs.Tests.{extents_counted, ExtentsPlaced, TellsAgain};
ghost use Rattle.write.specs.Call.{StoreReady, answered};
ghost use Rattle.batch.specs.Batch.{Wrote, batch_tried};

use format::refusal::Refusal;
use lent::Store;
use triples::TRIPLE_BYTES;
use write::{Done, MOST_RUNS};

// Refusals 1 and 2: tried if asked for; where they are not, the store passes them.
fn tried(store: &Store<'_>, again: bool) -> Result<(), Refusal>
    requires { again ≡ false → Passes (store_of store.now) }
    ensures { number_in result ≡ store_number (store_of store.now) }
{
    if !again {
        return Ok(());
    }
    intake::refused(&store.view())
}

// One write as a call: the number of its refusal, or 0. Refusals 1 and 2 are tried if asked for.
fn write_next(
    store: &mut Store<'_>,
    again: bool,
    object: u64,
    offset: u64,
    bytes: &[u8],
    seconds: u64,
    nanoseconds: u64,
) -> u32
    requires tested { again ≡ false → Passes (store_of store.old) }
    requires lent_bytes { StoreBytes (store_of store.old) }
    ensures same_places { SamePlaces store.old store.new }
    ensures done { Wrote object offset bytes.now seconds nanoseconds (store_of store.old) result (store_of store.new) }
{
    if let Err(refusal) = tried(store, again) {
        return refusal.number();
    }
    let done = write::write::write_file(
        store,
        MOST_RUNS,
        object,
        offset,
        bytes,
        seconds,
        nanoseconds,
    );
    done.number
}

// The writes of a list, each of as many of the bytes as it says, one after another: how many were done, and the number of what stopped them or 0. Before
// each but the first refusals 1 and 2 are tried again where a block is shared.
fn write_all(
    store: &mut Store<'_>,
    shared: bool,
    list: &[u8],
    bytes: &[u8],
    seconds: u64,
    nanoseconds: u64,
) -> Done
    requires store_ready { StoreReady (store_of store.old) }
    requires unshared { shared ≡ false → Unshared (decode (store_of store.old)) }
    requires list_value { lengths_of (decode_triples list.now) ≡ length bytes.now }
    requires triple_bytes_len_bound { length list.now / triple_bytes ≤ most_triples }
    ensures same_places { SamePlaces store.old store.new }
    ensures done { answered result.number result.count (store_of store.new) ≡ batch_from (decode_triples list.now) bytes.now (record { seconds = seconds; nanoseconds = nanoseconds }) 0 (store_of store.old) }
{
    let n = list.len() / TRIPLE_BYTES;
    let mut again = false;
    let mut at: usize = 0;
    for i in 0..n {
        let t = triples::triple_at(list, i);
        let end = at + t.len as usize;
        let number = write_next(
            store,
            again,
            t.object,
            t.offset,
            &bytes[at..end],
            seconds,
            nanoseconds,
        );
        if number != 0 {
            return Done {
                number,
                count: i as u64,
            };
        }
        again = shared;
        at = end;
    }
    Done {
        number: 0,
        count: n as u64,
    }
}

// Whether refusals 1 and 2 are tried again before each write of the list but the first.
fn tests_again(store: &Store<'_>, list: &[u8]) -> bool
    requires { ExtentsPlaced store.now.head.now store.now.extents.now }
    ensures { TellsAgain result list.now (extents_counted store.now.head.now store.now.extents.now) }
{
    batch_tests::tests_again(store.head, store.extents, list)
}

// A batch of writes: refusal 18, or how many were done and the number of what stopped them or 0.
pub fn write_batch(
    store: &mut Store<'_>,
    list: &[u8],
    bytes: &[u8],
    seconds: u64,
    nanoseconds: u64,
) -> Done
    requires { StoreReady (store_of store.old) }
    ensures same_places { SamePlaces store.old store.new }
    ensures done { answered result.number result.count (store_of store.new) ≡ batch_tried list.now bytes.now (record { seconds = seconds; nanoseconds = nanoseconds }) (store_of store.old) }
{
    if batch_tests::batch_wrong(list, bytes) {
        return Done {
            number: Refusal::BadBatch.number(),
            count: 0,
        };
    }
    let shared = tests_again(store, list);
    write_all(store, shared, list, bytes, seconds, nanoseconds)
}
