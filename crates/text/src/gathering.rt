// All of what is made of things in a row, if something is made of each. A loop, since of the library's `collect` into an
// `Option` it is not known when it gives nothing.
ghost use Rattle.std.specs.Prelude.{◌≡◌, [], Option, IfOk, vec_items};
ghost use Rattle.std.specs.Fn.{FnReturnsAt};
ghost use Rattle.std.specs.Option.{option_map};
ghost use Rattle.text.specs.Gathered.{gathered, Makes};

use std::alloc::{AllocError, Global};

// What is made of each, in their order; nothing if nothing is made of one.
pub fn gather<T, U: Drop, F: Fn(&T) -> Option<U>>(
    heap: Global,
    items: &[T],
    make: F,
) -> Result<Option<Vec<U>>, AllocError>
    requires { F.IsAlwaysCallable make }
    ensures { (f : T → Option U) → Makes (FnReturnsAt F.Fn make) f
        → IfOk result (λ o. option_map vec_items o ≡ gathered f [] items.now) }
{
    let mut all = Vec::new(heap);
    for item in items {
        let Some(made) = make(item) else {
            return Ok(None);
        };
        all.push(made)?;
    }
    Ok(Some(all))
}
