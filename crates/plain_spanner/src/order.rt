//! A list put in order, with each value once.
ghost use Rattle.std.specs.Prelude.{◌≡◌, true};
ghost use Rattle.std.specs.List.Sorted.{IsStrictlySortedBy};
ghost use Rattle.span_core.specs.Lists.{Has};

/// Puts the values in order, and keeps each once. Takes no memory.
pub fn sort_once<T: Ord + Drop>(values: &mut Vec<T>)
    requires exact { (x y : T) → T.eq x y ≡ true → x ≡ y }
    ensures in_order { IsStrictlySortedBy T.cmp values.new.items }
    ensures keeps { (x : T) → Has values.old.items x → Has values.new.items x }
    ensures adds_none { (x : T) → Has values.new.items x → Has values.old.items x }
{
    values.sort_unstable();
    values.dedup();
}
