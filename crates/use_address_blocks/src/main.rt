//! A table of address blocks, none of which holds another: a block goes by the octets that its addresses begin with.
//! Who has an address is found by one look-up of its octets, `prefix_get`.
#![tactic(auto)]

ghost use Rattle.std.specs.Prelude.{◌≡◌, Some, true, false, option_map, IfOk, OnErr};
ghost use Rattle.std.specs.Map.Iter.{deref_pair};
ghost use Rattle.art_bytes.specs.Keys.{BeginsWith};
ghost use Rattle.use_address_blocks.specs.Blocks.{IsBlockOf, IsBlockAdded};

use art_bytes::SliceKey;
use art_map::{TreeMap, TryInsertError};
use std::alloc::{AllocError, Global};
use std::io;

/// Who has each block.
type Blocks = TreeMap<Vec<u8>, String, 16>;

/// The block that holds an address, if there is one. No other block of the table holds the address.
fn block_of<'a>(blocks: &'a Blocks, address: &[u8]) -> Option<(&'a Vec<u8>, &'a String)>
    ensures { IsBlockOf address.now blocks.now.pairs (option_map deref_pair result) }
{
    // The keys ascend, and so no block holds another.
    let _ = blocks.nodes();
    blocks.prefix_get_key_value(&SliceKey(address))
}

/// Puts a block in the table, unless it holds another block of the table or another holds it. From then on each of its
/// addresses is found to be its owner's; every other block is as it was.
fn add(blocks: &mut Blocks, octets: Vec<u8>, owner: String) -> Result<bool, AllocError>
    ensures added { IfOk result (λ added. IsBlockAdded added (octets, owner) blocks.old.pairs blocks.new.pairs) }
    ensures err { OnErr result (blocks.new.pairs ≡ blocks.old.pairs) }
{
    match blocks.try_insert(octets, owner) {
        Ok(_) => {
            let _ = blocks.nodes();
            Ok(true)
        }
        Err(refused) => match &refused {
            TryInsertError::Prefix { .. } => Ok(false),
            TryInsertError::Memory { .. } => Err(AllocError),
        },
    }
}

/// The octets of a text as `10.1`, or nothing where it is no such text.
fn octets_of(alloc: Global, text: &str) -> Result<Option<Vec<u8>>, AllocError> {
    let mut octets = Vec::new(alloc);
    for part in text.split('.') {
        match part.parse::<u8>() {
            Ok(octet) => octets.push(octet)?,
            Err(_) => return Ok(None),
        }
    }
    Ok(Some(octets))
}

/// Puts a block in the table, and tells what came of it.
fn put(
    alloc: Global,
    blocks: &mut Blocks,
    octets: &str,
    owner: &str,
) -> Result<String, AllocError> {
    let Some(octets) = octets_of(alloc, octets)? else {
        return format!(in alloc; "no octets");
    };
    if add(blocks, octets, String::from_str(alloc, owner)?)? {
        format!(in alloc; "taken")
    } else {
        format!(in alloc; "nests with another block")
    }
}

/// Tells who has an address.
fn find(alloc: Global, blocks: &Blocks, address: &str) -> Result<String, AllocError> {
    let Some(octets) = octets_of(alloc, address)? else {
        return format!(in alloc; "no address");
    };
    match block_of(blocks, octets.as_slice()) {
        Some((front, owner)) => format!(in alloc; "{owner}, by {front:?}"),
        None => format!(in alloc; "nobody"),
    }
}

/// Carries out a line `block OCTETS OWNER` or `find ADDRESS`, and gives its answer.
fn answer(alloc: Global, blocks: &mut Blocks, line: &str) -> Result<String, AllocError> {
    let words: Vec<&str> = line.split_whitespace().collect(alloc)?;
    match words.as_slice() {
        ["block", octets, owner] => put(alloc, blocks, octets, owner),
        ["find", address] => find(alloc, blocks, address),
        _ => format!(in alloc; "not understood"),
    }
}

/// Answers each line.
fn answer_lines(rt: &HostRuntime, blocks: &mut Blocks) -> io::Result<()> {
    for line in rt.lines(rt.alloc()) {
        let line = line?;
        let told = answer(rt.alloc(), blocks, line.as_str())?;
        println!(rt; "{line}: {told}")?;
    }
    Ok(())
}

fn main(rt: HostRuntime) -> io::Result<()> {
    let mut blocks = TreeMap::new(rt.alloc());
    answer_lines(&rt, &mut blocks)
}
