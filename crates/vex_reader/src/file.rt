// What a text stands for.
use item_list::ItemList;
use named_list::Named;
use num_time::Name;

/// A value: its words and quoted texts in their order, none where it is blank. A quoted text has both its quotes, so
/// it begins with `"`, as no word does.
pub type Value = ItemList<Name>;

/// A ref or an assignment: the byte at which it begins, its key, and its values, parted by colons.
#[derive(Debug, Drop)]
pub struct Statement {
    pub at: u64,
    /// The assignment's word; `ref` for a ref.
    pub key: Name,
    /// The name of a ref's block, with its `$`; none for an assignment.
    pub target: Option<Name>,
    pub values: ItemList<Value>,
}

/// A def or a scan: the byte at which it begins, and what stands in it.
#[derive(Debug, Drop)]
pub struct Item {
    pub at: u64,
    pub statements: ItemList<Statement>,
}

/// A block: what stands in it outside its defs and scans, and these by their names.
#[derive(Debug, Drop)]
pub struct Block {
    pub loose: ItemList<Statement>,
    pub defs: Named<Item>,
    pub scans: Named<Item>,
}

/// The blocks of a text by their names, which begin with `$`.
#[derive(Debug, Drop)]
pub struct VexFile {
    pub blocks: Named<Block>,
}
