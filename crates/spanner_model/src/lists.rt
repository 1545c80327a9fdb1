//! Lists that grow.
ghost use Rattle.std.specs.Prelude.{◌≡◌, ◌++◌, [], ◌∷◌, is_ok, if◌then◌else◌, IfErr};

use span_core::OutOfMemory;

/// Appends a part. Where there is no memory for it, hands it back, and the list is as it was.
pub(crate) fn push_or_give_back<T>(list: &mut Vec<T>, part: T) -> Result<(), (T, OutOfMemory)>
    ensures list { list.new.items ≡ (if is_ok result then list.old.items ++ part ∷ [] else list.old.items) }
    ensures back { IfErr result (λ e. e.0 ≡ part) }
{
    match list.push(part) {
        Ok(()) => Ok(()),
        Err(refused) => Err((refused.value, OutOfMemory)),
    }
}
