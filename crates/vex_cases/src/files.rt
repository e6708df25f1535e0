//! Files, as they are printed.

use case_texts::put_text;
use named_list::Named;
use std::alloc::{AllocError, Global};
use vex_reader::{Item, Statement, VexFile};

// `key>target=[word word][word];`, with no `>target` for an assignment.
fn put_entry(alloc: Global, out: &mut String, entry: &Statement) -> Result<(), AllocError> {
    put_text(alloc, out, entry.key.bytes())?;
    if let Some(target) = &entry.target {
        out.push('>')?;
        put_text(alloc, out, target.bytes())?;
    }
    out.push('=')?;
    for value in entry.values.items() {
        out.push('[')?;
        for (i, word) in value.items().iter().enumerate() {
            if i > 0 {
                out.push(' ')?;
            }
            put_text(alloc, out, word.bytes())?;
        }
        out.push(']')?;
    }
    out.push(';')
}

// `word name(entries)` for each def or scan.
fn put_items(
    alloc: Global,
    out: &mut String,
    word: &str,
    items: &Named<Item>,
) -> Result<(), AllocError> {
    for i in 0..items.len() {
        let (name, item) = items.at(i);
        out.push_str(word)?;
        put_text(alloc, out, name)?;
        out.push('(')?;
        for entry in item.statements.items() {
            put_entry(alloc, out, entry)?;
        }
        out.push(')')?;
    }
    Ok(())
}

/// What a file says: `name{entries, defs, scans}` for each block.
pub fn put_file(alloc: Global, out: &mut String, file: &VexFile) -> Result<(), AllocError> {
    for i in 0..file.blocks.len() {
        let (name, block) = file.blocks.at(i);
        put_text(alloc, out, name)?;
        out.push('{')?;
        for entry in block.loose.items() {
            put_entry(alloc, out, entry)?;
        }
        put_items(alloc, out, "def ", &block.defs)?;
        put_items(alloc, out, "scan ", &block.scans)?;
        out.push('}')?;
    }
    Ok(())
}

fn put_statement_places(
    alloc: Global,
    out: &mut String,
    statements: &[Statement],
) -> Result<(), AllocError> {
    for entry in statements {
        out.push_str(format!(in alloc; " {}", entry.at)?.as_str())?;
    }
    Ok(())
}

fn put_item_places(alloc: Global, out: &mut String, items: &Named<Item>) -> Result<(), AllocError> {
    for i in 0..items.len() {
        let (name, item) = items.at(i);
        out.push(' ')?;
        put_text(alloc, out, name)?;
        out.push_str(format!(in alloc; " {} (", item.at)?.as_str())?;
        put_statement_places(alloc, out, item.statements.items())?;
        out.push_str(" )")?;
    }
    Ok(())
}

/// Where its statements, defs and scans begin.
pub fn put_places(alloc: Global, out: &mut String, file: &VexFile) -> Result<(), AllocError> {
    for i in 0..file.blocks.len() {
        let (name, block) = file.blocks.at(i);
        put_text(alloc, out, name)?;
        put_statement_places(alloc, out, block.loose.items())?;
        put_item_places(alloc, out, &block.defs)?;
        put_item_places(alloc, out, &block.scans)?;
        out.push_str("; ")?;
    }
    Ok(())
}
