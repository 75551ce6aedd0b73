// Appending to lists. Each function returns `NoMemory` if memory runs out.
ghost use Rattle.std.specs.Prelude.{◌≡◌, ◌++◌, ◌∷◌, [], OnOk};

use sfu_base::NoMemory;

/// Appends an item. If this returns `NoMemory`, the list may have changed.
pub fn put_last<T: Drop>(list: &mut Vec<T>, item: T) -> Result<(), NoMemory>
    ensures { OnOk result (list.new.items ≡ list.old.items ++ item ∷ []) }
{
    match list.push(item) {
        Ok(()) => Ok(()),
        Err(_) => Err(NoMemory),
    }
}

/// Appends all of `items` to `list`, in order.
pub fn put_all<T: Drop>(list: &mut Vec<T>, mut items: Vec<T>) -> Result<(), NoMemory>
    ensures { OnOk result (list.new.items ≡ list.old.items ++ items.items) }
{
    match list.append(&mut items) {
        Ok(()) => Ok(()),
        Err(_) => Err(NoMemory),
    }
}
