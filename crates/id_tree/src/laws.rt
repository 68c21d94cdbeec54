//! What identifier trees are, as laws: each law is the contract of a function that does nothing.

ghost use Rattle.id_tree.specs.Laws.{HasFewPages, TablesHaveOneImage};

/// A table has a page for each 28 objects, and seven more at most: each leaf but the last one has more than
/// 28, and each fork but those at the edge of the tree 85 children.
pub fn a_table_has_few_pages()
    ensures { HasFewPages }
{}

/// A table has one image: where the same table stands in two maps of pages with zeros in all bytes that they
/// do not name, each of its pages has the same bytes in both.
pub fn a_table_has_one_image()
    ensures { TablesHaveOneImage }
{}
