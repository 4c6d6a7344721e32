// Free segments, and the chain behind a checkpoint.
use crate::failures::{of_memory, of_roll, of_view};
use crate::mounts::mounted;
use crate::words::small;
use f2_case_disk::{CallError, CaseDisk};
use f2_commit::{ChainNode, chain_nodes, counting, free};
use f2_roll::chain;
use std::alloc::Global;

// The free segments, ascending, in one line.
pub(crate) fn free_segments(
    alloc: Global,
    disk: &mut CaseDisk,
    words: &[String],
) -> Result<String, CallError> {
    if !words.is_empty() {
        return Err(CallError::Words);
    }
    let mut m = mounted(alloc, disk)?;
    let l = m.layout();
    let behind = chain(alloc, disk, &l, m.chosen().head().block()).map_err(of_roll)?;
    let found = free(alloc, &mut m, &behind, disk).map_err(of_view)?;
    let mut text = String::new(alloc);
    for segment in &found {
        if !text.is_empty() {
            text.push(' ').map_err(of_memory)?;
        }
        write!(text, "{segment}").map_err(of_memory)?;
    }
    text.push('\n').map_err(of_memory)?;
    Ok(text)
}

fn word(said: bool, yes: &'static str) -> &'static str {
    if said { yes } else { "" }
}

// The line of a node of a chain.
fn put_node(node: &ChainNode, counts: bool, text: &mut String) -> Result<(), CallError> {
    let (nid, ino, at) = (node.nid, node.ino, node.address);
    let inode = word(node.is_inode, " inode");
    let fsync = word(node.fsync, " fsync");
    let dentry = word(node.dentry, " dentry");
    let listed = word(node.listed, " listed");
    let counted = word(counts, " counts");
    writeln!(
        text,
        "node {nid} ino {ino} at {at}{inode}{fsync}{dentry}{listed}{counted}"
    )
    .map_err(of_memory)
}

// The nodes of the chain, in order, with their marks.
pub(crate) fn nodes(
    alloc: Global,
    disk: &mut CaseDisk,
    words: &[String],
) -> Result<String, CallError> {
    if !words.is_empty() {
        return Err(CallError::Words);
    }
    let mut m = mounted(alloc, disk)?;
    let entries = m.nat_entries(disk).map_err(of_view)?;
    let l = m.layout();
    let behind = chain(alloc, disk, &l, m.chosen().head().block()).map_err(of_roll)?;
    let found = chain_nodes(alloc, &m, &behind, disk, &entries).map_err(of_view)?;
    let counts = counting(alloc, &found).map_err(of_memory)?;
    let mut text = String::new(alloc);
    for (node, counts) in found.iter().zip(counts.iter()) {
        put_node(node, *counts, &mut text)?;
    }
    Ok(text)
}

// A node with this mark, too.
fn marked(node: ChainNode, mark: &str) -> Result<ChainNode, CallError> {
    let mut node = node;
    match mark {
        "inode" => node.is_inode = true,
        "fsync" => node.fsync = true,
        "dentry" => node.dentry = true,
        "listed" => node.listed = true,
        _ => return Err(CallError::Words),
    }
    Ok(node)
}

// A node of a file, without marks.
fn bare(nid: u32, ino: u32) -> ChainNode {
    ChainNode {
        nid,
        ino,
        address: 0,
        is_inode: false,
        fsync: false,
        dentry: false,
        listed: false,
    }
}

// The node that words say.
fn node_of(words: &[String]) -> Result<ChainNode, CallError> {
    match words {
        [nid, ino, marks @ ..] => {
            let mut node = bare(small(nid.as_str())?, small(ino.as_str())?);
            for mark in marks {
                node = marked(node, mark.as_str())?;
            }
            Ok(node)
        }
        _ => Err(CallError::Words),
    }
}

// The nodes that words say, each behind the word `node`.
fn nodes_of(alloc: Global, words: &[String]) -> Result<Vec<ChainNode>, CallError> {
    let mut nodes = Vec::new(alloc);
    for part in words.split(|word| word.as_str() == "node").skip(1) {
        let node = node_of(part)?;
        nodes.push(node).map_err(|_| CallError::NoMemory)?;
    }
    Ok(nodes)
}

// Whether each of the nodes counts, in one line.
pub(crate) fn counts(alloc: Global, words: &[String]) -> Result<String, CallError> {
    let nodes = nodes_of(alloc, words)?;
    let counts = counting(alloc, &nodes).map_err(of_memory)?;
    let mut text = String::new(alloc);
    for counts in &counts {
        if !text.is_empty() {
            text.push(' ').map_err(of_memory)?;
        }
        text.push_str(if *counts { "yes" } else { "no" })
            .map_err(of_memory)?;
    }
    text.push('\n').map_err(of_memory)?;
    Ok(text)
}
