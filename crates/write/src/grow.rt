// The call grow, past refusals 1 and 2.
ghost use Rattle.std.specs.Prelude.{◌≡◌, [], ◌≤◌, ◌<◌};
ghost use Rattle.rules.specs.Sizes.{most_size};
ghost use Rattle.rules.specs.Refusal.{result as result_of};
ghost use Rattle.rules.specs.Write.{grow_outcome};
ghost use Rattle.lent.specs.Lent.{store_of, SamePlaces};
ghost use Rattle.file.specs.Change.{numbered};
ghost use Rattle.write.specs.Call.{StoreReady, FileReady, TimeFits, answered, grown};

use super::MOST_RUNS;
use format::refusal::Refusal;
use kept::Change;
use lent::Store;

// The file of `object` with this size and count of blocks grown to a larger size: 9 to 16, or 0 and the store as the rules leave it.
fn grow_to(
    store: &mut Store<'_>,
    object: u64,
    old_size: u64,
    allocated: u64,
    size: u64,
    seconds: u64,
    nanoseconds: u64,
) -> u32
    requires file_ready { FileReady (store_of store.old) object old_size allocated }
    requires old_size_lt_size { (old_size < size) × (size ≤ most_size) × TimeFits seconds nanoseconds }
    ensures same_places { SamePlaces store.old store.new }
    ensures grown { numbered result (store_of store.new) ≡ grown (store_of store.old) object old_size allocated size seconds nanoseconds }
{
    let mut units = [0u64; 1];
    let none = [0u8; 0];
    let change = Change {
        old_size,
        new_size: size,
        offset: 0,
        len: 0,
    };
    let k = change.grow_units(&mut units);
    change::change_file(
        store,
        MOST_RUNS,
        object,
        change,
        &none,
        allocated,
        seconds,
        nanoseconds,
        &units[..k],
    )
}

// The file of `object` grown to `size` bytes: refusals 3, 5 to 7 and 9 to 16, or 0. Its count is 0.
pub fn grow_file(
    store: &mut Store<'_>,
    object: u64,
    size: u64,
    seconds: u64,
    nanoseconds: u64,
) -> u32
    requires { StoreReady (store_of store.old) }
    ensures same_places { SamePlaces store.old store.new }
    ensures grown { answered result 0 (store_of store.new) ≡ result_of (store_of store.old) [] (grow_outcome object size (record { seconds = seconds; nanoseconds = nanoseconds }) (store_of store.old)) }
{
    let Some(file) = super::find::find_in(store, object) else {
        return Refusal::NoCard.number();
    };
    let old_size = file.size;
    if let Err(r) = file::tests::grow_refused(old_size, size, seconds, nanoseconds) {
        return r.number();
    }
    if size == old_size {
        return 0;
    }
    grow_to(
        store,
        object,
        old_size,
        file.allocated,
        size,
        seconds,
        nanoseconds,
    )
}
