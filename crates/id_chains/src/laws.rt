//! What a directory page spells, as a law of all lists of bytes: the contract of a function that does
//! nothing.

ghost use Rattle.id_chains.specs.Tidy.{DirectoriesHaveOnePage};

/// A directory has one page: two of a dimension that name the same first pages, with zeros in all bytes that
/// they do not name, have the same bytes.
pub fn a_directory_has_one_page()
    ensures { DirectoriesHaveOnePage }
{}
