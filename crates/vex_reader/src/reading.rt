// What the statements of a text say, one after another.
ghost use Rattle.std.specs.Prelude.{◌≡◌, ◌<◌, IfOk, MatchResult, Result};
ghost use Rattle.vex_reader.specs.Fault.{out_of_memory};
ghost use Rattle.vex_reader.specs.Reading.{State, Outside, InBlock, InItem, start, is_one_word, is_revision, items_of, double, outside_fault, block_fault, item_fault, fault_of, with_loose, with_item, with_statement, empty_block, changed, after, after_at, closed, ended};
ghost use Rattle.vex_reader.specs.{Grammar.{Answers}, ReadingState.{state_of}};
ghost use Rattle.named_list.specs.Named.{put};

use crate::fault::{VexFault, VexKind};
use crate::file::{Block, Item, Statement, VexFile};
use crate::shape::{ItemKind, Shape};
use item_list::ItemList;
use named_list::Named;
use num_time::Name;
use std::alloc::{AllocError, Global};
use vex_lex::Token;

/// A block that is open, with its name. It stands beside the others until it ends.
#[derive(Drop)]
pub struct OpenBlock {
    pub name: Name,
    pub block: Block,
}

/// A def or a scan that is open, with its name.
#[derive(Drop)]
pub struct OpenItem {
    pub kind: ItemKind,
    pub name: Name,
    pub item: Item,
}

/// Where a reading stands.
#[derive(Drop)]
pub enum Place {
    /// No statement has counted.
    Before,
    /// Before any block.
    Outside,
    InBlock(OpenBlock),
    InItem(OpenBlock, OpenItem),
}

/// The reading of a text's first statements. Where a block is open, what `blocks` has under its name does not count.
#[derive(Drop)]
pub struct Reading {
    blocks: Named<Block>,
    place: Place,
}

// Whether the values are this one word.
fn is_one_word(values: &[ItemList<Name>], word: &[u8]) -> bool
    ensures { result ≡ is_one_word values.now word.now }
{
    let [value] = values else {
        return false;
    };
    let [only] = value.items() else {
        return false;
    };
    only.bytes() == word
}

// Whether a statement says the revision of the language that is read.
fn is_revision(shape: &Shape) -> bool
    ensures { result ≡ is_revision shape.now }
{
    match shape {
        Shape::Entry(entry) => {
            entry.key.bytes() == b"VEX_rev".as_slice() && is_one_word(entry.values.items(), b"1.5")
        }
        _ => false,
    }
}

fn double(kind: ItemKind) -> VexKind
    ensures { result ≡ double kind }
{
    match kind {
        ItemKind::Def => VexKind::DoubleDef,
        ItemKind::Scan => VexKind::DoubleScan,
    }
}

// The defs or the scans of a block.
fn items_of(kind: ItemKind, block: &Block) -> &Named<Item>
    ensures { result.now ≡ items_of kind block.now }
{
    match kind {
        ItemKind::Def => &block.defs,
        ItemKind::Scan => &block.scans,
    }
}

// The fault of a statement before any block.
fn outside_fault(shape: &Shape) -> Option<VexKind>
    ensures { result ≡ outside_fault shape.now }
{
    match shape {
        Shape::Block(_) => None,
        _ => Some(VexKind::Outside),
    }
}

// The fault of a statement in a block.
fn block_fault(block: &Block, shape: &Shape) -> Option<VexKind>
    ensures { result ≡ block_fault block.now shape.now }
{
    match shape {
        Shape::Begin(kind, name) if items_of(*kind, block).has(name.bytes()) => Some(double(*kind)),
        Shape::End(_) => Some(VexKind::Outside),
        _ => None,
    }
}

// The fault of a statement in a def or a scan.
fn item_fault(kind: ItemKind, shape: &Shape) -> Option<VexKind>
    ensures { result ≡ item_fault kind shape.now }
{
    match shape {
        Shape::End(other) if kind == *other => None,
        Shape::Entry(_) => None,
        _ => Some(VexKind::OpenDef),
    }
}

// A def or a scan with one more statement.
fn with_statement(entry: Statement, item: Item) -> Result<Item, AllocError>
    ensures { IfOk result (λ changed. changed ≡ with_statement entry item) }
{
    let mut statements = item.statements.into_vec();
    statements.push(entry)?;
    Ok(Item {
        at: item.at,
        statements: ItemList::of(statements),
    })
}

// A block with one more statement outside its defs and scans.
fn with_loose(entry: Statement, block: Block) -> Result<Block, AllocError>
    ensures { IfOk result (λ changed. changed ≡ with_loose entry block) }
{
    let Block { loose, defs, scans } = block;
    let mut loose = loose.into_vec();
    loose.push(entry)?;
    Ok(Block {
        loose: ItemList::of(loose),
        defs,
        scans,
    })
}

// A block with one more def or scan.
fn with_item(alloc: Global, held: OpenItem, block: Block) -> Result<Block, AllocError>
    ensures { IfOk result (λ changed. changed ≡ with_item held.kind held.name held.item block) }
{
    let mut block = block;
    let OpenItem { kind, name, item } = held;
    match kind {
        ItemKind::Def => block.defs.put(alloc, name.bytes(), item)?,
        ItemKind::Scan => block.scans.put(alloc, name.bytes(), item)?,
    };
    Ok(block)
}

fn empty_block(alloc: Global) -> Block
    ensures { result ≡ empty_block }
{
    Block {
        loose: ItemList::of(Vec::new(alloc)),
        defs: Named::new(alloc),
        scans: Named::new(alloc),
    }
}

// The blocks, with one that was open among them.
fn close_block(
    alloc: Global,
    blocks: Named<Block>,
    held: OpenBlock,
) -> Result<Named<Block>, AllocError>
    ensures { IfOk result (λ all. all ≡ put blocks held.name held.block) }
{
    let mut blocks = blocks;
    let OpenBlock { name, block } = held;
    blocks.put(alloc, name.bytes(), block)?;
    Ok(blocks)
}

// The reading in a block that begins or goes on.
fn open_block(alloc: Global, blocks: Named<Block>, name: Name) -> Result<Reading, AllocError>
    ensures { IfOk result (λ reading. state_of reading
        ≡ record { blocks = changed blocks name (λ block. block); place = InBlock name }) }
{
    let mut blocks = blocks;
    let before = blocks.put(alloc, name.bytes(), empty_block(alloc))?;
    let block = before.unwrap_or(empty_block(alloc));
    Ok(Reading {
        blocks,
        place: Place::InBlock(OpenBlock { name, block }),
    })
}

// The reading behind a statement before any block.
fn outside_next(
    alloc: Global,
    blocks: Named<Block>,
    at: u64,
    shape: Shape,
) -> Result<Reading, AllocError>
    ensures { IfOk result (λ next. state_of next ≡ after_at blocks Outside at shape) }
{
    match shape {
        Shape::Block(name) => open_block(alloc, blocks, name),
        _ => Ok(Reading {
            blocks,
            place: Place::Outside,
        }),
    }
}

// The reading behind a statement in a block.
#[tactic(auto, using(crate::proofs::ReadingLemmas::changed_put))]
fn block_next(
    alloc: Global,
    blocks: Named<Block>,
    held: OpenBlock,
    at: u64,
    shape: Shape,
) -> Result<Reading, AllocError>
    ensures { IfOk result (λ next. state_of next ≡ after_at (put blocks held.name held.block) (InBlock held.name) at shape) }
{
    match shape {
        Shape::Block(name) => open_block(alloc, close_block(alloc, blocks, held)?, name),
        Shape::Begin(kind, name) => {
            let item = Item {
                at,
                statements: ItemList::of(Vec::new(alloc)),
            };
            Ok(Reading {
                blocks,
                place: Place::InItem(held, OpenItem { kind, name, item }),
            })
        }
        Shape::Entry(entry) => {
            let OpenBlock { name, block } = held;
            let block = with_loose(entry, block)?;
            Ok(Reading {
                blocks,
                place: Place::InBlock(OpenBlock { name, block }),
            })
        }
        _ => Ok(Reading {
            blocks,
            place: Place::InBlock(held),
        }),
    }
}

// The reading behind a statement in a def or a scan.
#[tactic(auto, using(crate::proofs::ReadingLemmas::changed_put))]
fn item_next(
    alloc: Global,
    blocks: Named<Block>,
    held: OpenBlock,
    begun: OpenItem,
    at: u64,
    shape: Shape,
) -> Result<Reading, AllocError>
    ensures { IfOk result (λ next. state_of next
        ≡ after_at (put blocks held.name held.block) (InItem held.name begun.kind begun.name begun.item) at shape) }
{
    let place = match shape {
        Shape::End(_) => Place::InBlock(OpenBlock {
            name: held.name,
            block: with_item(alloc, begun, held.block)?,
        }),
        Shape::Entry(entry) => Place::InItem(
            held,
            OpenItem {
                kind: begun.kind,
                name: begun.name,
                item: with_statement(entry, begun.item)?,
            },
        ),
        _ => Place::InItem(held, begun),
    };
    Ok(Reading { blocks, place })
}

impl Reading {
    /// The reading before a text.
    pub fn new(alloc: Global) -> Self
        ensures { state_of result ≡ start }
    {
        Reading {
            blocks: Named::new(alloc),
            place: Place::Before,
        }
    }

    /// The fault of a statement.
    #[tactic(auto, using(crate::proofs::ReadingLemmas::block_at_put))]
    pub fn fault(&self, shape: &Shape) -> Option<VexKind>
        ensures { result ≡ fault_of (state_of self.now) shape.now }
    {
        match (&self.place, shape) {
            (_, Shape::Blank) => None,
            (Place::Before, _) if is_revision(shape) => None,
            (Place::Before, _) => Some(VexKind::Revision),
            (_, Shape::Bad) => Some(VexKind::Statement),
            (_, Shape::Other) => None,
            (Place::Outside, _) => outside_fault(shape),
            (Place::InBlock(held), _) => block_fault(&held.block, shape),
            (Place::InItem(_, begun), _) => item_fault(begun.kind, shape),
        }
    }

    /// The reading behind a statement at a byte of the text.
    pub fn after(self, alloc: Global, at: u64, shape: Shape) -> Result<Self, AllocError>
        ensures { IfOk result (λ next. state_of next ≡ after (state_of self) at shape) }
    {
        let Reading { blocks, place } = self;
        match place {
            Place::Before => Ok(Reading {
                blocks,
                place: match shape {
                    Shape::Blank => Place::Before,
                    _ => Place::Outside,
                },
            }),
            Place::Outside => outside_next(alloc, blocks, at, shape),
            Place::InBlock(held) => block_next(alloc, blocks, held, at, shape),
            Place::InItem(held, begun) => item_next(alloc, blocks, held, begun, at, shape),
        }
    }

    // The answer where the text ends with no tokens left.
    fn close(self, alloc: Global, end: u64) -> Result<VexFile, VexFault>
        ensures { Answers (closed end (state_of self).blocks (state_of self).place) result }
    {
        let Reading { blocks, place } = self;
        match place {
            Place::Before => Err(VexFault {
                kind: VexKind::Revision,
                at: end,
            }),
            Place::Outside => Ok(VexFile { blocks }),
            Place::InBlock(held) => Ok(VexFile {
                blocks: close_block(alloc, blocks, held)?,
            }),
            Place::InItem(..) => Err(VexFault {
                kind: VexKind::OpenDef,
                at: end,
            }),
        }
    }

    /// The answer where a text of this length ends with these tokens left.
    pub fn finish(self, alloc: Global, end: u64, left: &[Token]) -> Result<VexFile, VexFault>
        ensures { Answers (ended end (state_of self) left.now) result }
    {
        match left.split_first() {
            None => self.close(alloc, end),
            Some((first, _)) => Err(VexFault {
                kind: VexKind::Statement,
                at: first.at,
            }),
        }
    }
}
