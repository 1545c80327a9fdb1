//! Laws of sets of characters and of their trees, each the contract of a function that does nothing.
ghost use Rattle.unicode_classes.specs.Laws.{RangesAreOne, EachTestHasRanges, ClassTreesAreOne, EachSetHasATree, ClassTreesFitTexts, ClassTreesArePlain};
ghost use Rattle.unicode_classes.specs.Laws.{PropertiesAreOne, EachPropertyHasASet};
ghost use Rattle.unicode_classes.specs.Digits.{HasDigits};

/// Ranges that are apart and have the same numbers are equal.
pub fn ranges_are_one()
    ensures { RangesAreOne }
{}

/// The characters that pass a test are those of some ranges.
pub fn each_test_has_ranges()
    ensures { EachTestHasRanges }
{}

/// A set has one tree.
pub fn class_trees_are_one()
    ensures { ClassTreesAreOne }
{}

/// The tree of a set fits the texts of the set's characters and nothing else, and captures nothing.
pub fn class_trees_fit_texts()
    ensures { ClassTreesFitTexts }
{}

/// The tree of a set that is not empty is well built, and has no variable.
pub fn class_trees_are_plain()
    ensures { ClassTreesArePlain }
{}

/// Each set that is not empty has a tree.
pub fn each_set_has_a_tree()
    ensures { EachSetHasATree }
{}

/// A name means one set.
pub fn properties_are_one()
    ensures { PropertiesAreOne }
{}

/// Each name of a property means a set.
pub fn each_property_has_a_set()
    ensures { EachPropertyHasASet }
{}

/// The UTF-8 of a character is made of its number's digits to the base 64.
pub fn a_text_has_its_digits(c: char)
    ensures { HasDigits c }
{
    let _number = c;
}
