// The call write, past refusals 1 and 2.
ghost use Rattle.std.specs.Prelude.{◌≡◌, [], max};
ghost use Rattle.rules.specs.Refusal.{result as result_of};
ghost use Rattle.rules.specs.Write.{write_outcome};
ghost use Rattle.lent.specs.Lent.{store_of, SamePlaces};
ghost use Rattle.file.specs.Change.{numbered};
ghost use Rattle.write.specs.Call.{StoreReady, FileReady, Taken, TimeFits, answered, written};

use super::Done;
use format::refusal::Refusal;
use kept::Change;
use lent::Store;

// Units of a write at most: those that the most bytes touch, and the old tail unit before them.
const MOST_UNITS: usize = 18;

// A write of bytes that are all taken, to the file of `object` with this size and count of blocks: 9 to 16, or 0 and the store as the rules leave it.
fn write_taken(
    store: &mut Store<'_>,
    limit: usize,
    object: u64,
    size: u64,
    allocated: u64,
    offset: u64,
    bytes: &[u8],
    seconds: u64,
    nanoseconds: u64,
) -> u32
    requires file_ready { FileReady (store_of store.old) object size allocated }
    requires taken { Taken offset bytes.now × TimeFits seconds nanoseconds }
    ensures same_places { SamePlaces store.old store.new }
    ensures written { numbered result (store_of store.new) ≡ written limit (store_of store.old) object size allocated offset bytes.now seconds nanoseconds }
{
    let len = bytes.len();
    let new_size = size.max(offset + len as u64);
    let mut units = [0u64; MOST_UNITS];
    let change = Change {
        old_size: size,
        new_size,
        offset,
        len,
    };
    let k = change.write_units(&mut units);
    change::change_file(
        store,
        limit,
        object,
        change,
        bytes,
        allocated,
        seconds,
        nanoseconds,
        &units[..k],
    )
}

// A write to the file of `object` with this size and count of blocks.
fn write_sized(
    store: &mut Store<'_>,
    limit: usize,
    object: u64,
    size: u64,
    allocated: u64,
    offset: u64,
    bytes: &[u8],
    seconds: u64,
    nanoseconds: u64,
) -> Done
    requires { FileReady (store_of store.old) object size allocated }
    ensures same_places { SamePlaces store.old store.new }
    ensures written { answered result.number result.count (store_of store.new) ≡ result_of (store_of store.old) [] (write_outcome limit object offset bytes.now (record { seconds = seconds; nanoseconds = nanoseconds }) (store_of store.old)) }
{
    if bytes.len() == 0 {
        return Done {
            number: 0,
            count: 0,
        };
    }
    let len = file::tests::taken(bytes.len());
    if let Err(r) = file::tests::write_refused(offset, len, seconds, nanoseconds) {
        return Done {
            number: r.number(),
            count: 0,
        };
    }
    let number = write_taken(
        store,
        limit,
        object,
        size,
        allocated,
        offset,
        &bytes[..len],
        seconds,
        nanoseconds,
    );
    if number != 0 {
        return Done { number, count: 0 };
    }
    Done {
        number: 0,
        count: len as u64,
    }
}

// A write of `bytes` from `offset` on to the file of `object`: refusals 3, 5, 7 and 9 to 16, or the number of bytes taken. What a unit keeps is held to
// `limit` runs.
pub fn write_file(
    store: &mut Store<'_>,
    limit: usize,
    object: u64,
    offset: u64,
    bytes: &[u8],
    seconds: u64,
    nanoseconds: u64,
) -> Done
    requires { StoreReady (store_of store.old) }
    ensures same_places { SamePlaces store.old store.new }
    ensures written { answered result.number result.count (store_of store.new) ≡ result_of (store_of store.old) [] (write_outcome limit object offset bytes.now (record { seconds = seconds; nanoseconds = nanoseconds }) (store_of store.old)) }
{
    let Some(file) = super::find::find_in(store, object) else {
        return Done {
            number: Refusal::NoCard.number(),
            count: 0,
        };
    };
    write_sized(
        store,
        limit,
        object,
        file.size,
        file.allocated,
        offset,
        bytes,
        seconds,
        nanoseconds,
    )
}
