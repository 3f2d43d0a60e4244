//! The batches that a trace is sent in, cut in one pass over its lines.
ghost use Rattle.std.specs.Prelude.{◌≡◌, ◌<◌, ◌≤◌, ◌+◌, ◌∷◌, ◌++◌, [], List, length, flat_map, IfOk, OnOk};
ghost use Rattle.std.specs.List.{AllByRecursion};
ghost use Rattle.mica_words.specs.declared.hashing.Hashing.TheVariants.{Fnv1a};
ghost use Rattle.mica_words.specs.Hash.{partition_of};
ghost use Rattle.mica_trace.specs.declared.line.TraceLine.{TraceLine};
ghost use Rattle.mica_trace.specs.TraceGrammar.{IsTraceLine};
ghost use Rattle.server_words.specs.AskOptions.{IsValidAsk};
ghost use Rattle.mica_client.specs.Batches.{Group, port_of, groups_of};
ghost use Rattle.mica_client.specs.Cutting.{share_with, AllHold, IsCutting};

use crate::AskOptions;
use crate::request::{Group, request_of};
use crate::share::Share;
use mica_trace::TraceLine;
use mica_words::{key_hash, partition_of};
use outside::NoMemory;
use std::alloc::Global;
use std::mem;

fn port_of(options: &AskOptions, partition: u32) -> u16
    requires { IsValidAsk options.now }
    ensures { result ≡ port_of options.now partition }
{
    options.port + (partition % options.fronts) as u16
}

// The partition of a line's key.
#[tactic(auto, unfolding(mica_words::specs::Hash::partition_of, mica_words::specs::Hash::hash_of))]
fn part_of(options: &AskOptions, line: &TraceLine) -> u32
    requires { IsValidAsk options.now }
    ensures { result ≡ partition_of Fnv1a line.now.key options.now.partitions }
{
    partition_of(key_hash(line.key.bytes()), options.partitions)
}

// A share for each partition, with no requests yet.
fn shares_of<'a>(alloc: Global, options: &AskOptions) -> Result<Vec<Share<'a>>, NoMemory>
    requires { IsValidAsk options.now }
    ensures many { IfOk result (λ shares. length shares.items ≡ options.now.partitions) }
    ensures none { IfOk result (λ shares. AllHold options.now [] 0 shares.items) }
{
    let mut shares = Vec::with_capacity(alloc, options.partitions as usize)?;
    for partition in 0..options.partitions {
        shares.push(Share::new(alloc, port_of(options, partition)))?;
    }
    Ok(shares)
}

// Adds the batches of a round, partition by partition.
fn push_round<'a>(
    per: u32,
    shares: Vec<Share<'a>>,
    groups: &mut Vec<Group<'a>>,
) -> Result<(), NoMemory>
    ensures { OnOk result (groups.new.items
        ≡ groups.old.items ++ flat_map (λ share. share_with per share []) shares.entry.items) }
{
    for share in shares {
        share.finish(groups)?;
    }
    Ok(())
}

// Takes the next line: its request goes to the share of its key's partition, and a line without one ends the round.
fn take_line<'a>(
    alloc: Global,
    options: &AskOptions,
    number: u32,
    line: &'a TraceLine,
    shares: &mut Vec<Share<'a>>,
    groups: &mut Vec<Group<'a>>,
) -> Result<(), NoMemory>
    requires valid { IsValidAsk options.now }
    requires lawful { IsTraceLine line.now }
    requires number { number < 100000 }
    requires many { length shares.old.items ≡ options.now.partitions }
    ensures many { OnOk result (length shares.new.items ≡ options.now.partitions) }
    ensures taken { OnOk result ((later : List TraceLine) (all : List Group)
        → IsCutting options.now number (line.now ∷ later) groups.old.items shares.old.items all
        → IsCutting options.now (number + 1) later groups.new.items shares.new.items all) }
{
    match request_of(number, line) {
        Some(request) => {
            let share = &mut shares[part_of(options, line) as usize];
            share.put(alloc, options.per, request)
        }
        None => {
            let round = mem::replace(shares, shares_of(alloc, options)?);
            push_round(options.per, round, groups)
        }
    }
}

/// The batches that the lines of a trace are sent in, in order.
pub fn groups_of<'a>(
    alloc: Global,
    options: &AskOptions,
    lines: &'a [TraceLine],
) -> Result<Vec<Group<'a>>, NoMemory>
    requires valid { IsValidAsk options.now }
    requires lawful { AllByRecursion IsTraceLine lines.now }
    requires few { length lines.now ≤ 100000 }
    ensures { IfOk result (λ groups. groups.items ≡ groups_of options.now lines.now) }
{
    let mut groups = Vec::new(alloc);
    let mut shares = shares_of(alloc, options)?;
    for (number, line) in lines.iter().enumerate() {
        take_line(
            alloc,
            options,
            number as u32,
            line,
            &mut shares,
            &mut groups,
        )?;
    }
    push_round(options.per, shares, &mut groups)?;
    Ok(groups)
}
