//! Walks over trees.

ghost use Rattle.std.specs.Prelude.{◌≡◌, ◌≢◌, [], IfOk};

use super::numbers::node;
use hub_model::Instance;
use std::alloc::{AllocError, Global};
use std::io;
use tree_lines::TreePath;

// The nodes that are looked at are those below this one.
const LIMIT: u32 = 4;

/// What is free at first, and behind each line.
pub fn walked(rt: &impl Print, alloc: Global, instance: &Instance, text: &str) -> io::Result<()> {
    let mut path = TreePath::new(alloc, instance)?;
    tell(rt, alloc, "at first", &path)?;
    for line in text.split_whitespace() {
        take(&mut path, line);
        tell(rt, alloc, line, &path)?;
    }
    Ok(())
}

fn tell(rt: &impl Print, alloc: Global, line: &str, path: &TreePath) -> io::Result<()> {
    if path.is_filled() {
        return println!(rt; "  {line}: filled");
    }
    let is_closed = path.is_closed();
    let free = free_nodes(alloc, path)?;
    println!(rt; "  {line}: free {free:?}, all closed: {is_closed}")
}

fn free_nodes(alloc: Global, path: &TreePath) -> Result<Vec<u32>, AllocError>
    requires { path.now.pending ≢ [] }
{
    let mut free = Vec::new(alloc);
    for k in 0..LIMIT {
        if path.is_free(k) {
            free.push(k)?;
        }
    }
    Ok(free)
}

// Takes the line, if it may come there.
fn take(path: &mut TreePath, line: &str)
    ensures { path.new.size ≡ path.old.size }
{
    match line {
        "root" => path.restart(),
        "-" => fill(path),
        _ => branch(path, node(line)),
    }
}

fn fill(path: &mut TreePath)
    ensures { path.new.size ≡ path.old.size }
{
    if !path.is_filled() {
        path.fill();
    }
}

fn branch(path: &mut TreePath, k: u32)
    ensures { path.new.size ≡ path.old.size }
{
    if !path.is_filled() && path.is_free(k) {
        path.branch(k);
    }
}

/// The path behind these lines.
pub fn behind(alloc: Global, instance: &Instance, text: &str) -> Result<TreePath, AllocError>
    ensures { IfOk result (λ path. path.size ≡ instance.now.size) }
{
    let mut path = TreePath::new(alloc, instance)?;
    for line in text.split_whitespace() {
        take(&mut path, line);
    }
    Ok(path)
}
