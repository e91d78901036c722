// A model file gone through once, to check it: nothing is written.
#![tactic(auto)]

ghost use Rattle.std.specs.Prelude.{◌≡◌, ◌≤◌};
ghost use Rattle.rules.specs.Model.{count_good, nodes_at, trees_at, model_in};
ghost use Rattle.model_check.specs.Seen.{one_tree, nodes_seen, tree_seen, trees_seen, model_seen};

use fields::Read;
use rules::{Misread, ModelReply, Sizes};

// The n nodes of a tree: where they end, if all are good.
fn nodes_seen(bytes: &[u8], features: usize, n: usize, start: usize) -> Result<usize, Misread>
    requires nodes_below { n ≤ 4294967295 }
    requires features_below { features ≤ 4294967295 }
    ensures { result ≡ nodes_seen (nodes_at bytes.now features n 0 n start) }
{
    let mut at = start;
    for k in 0..n {
        let (_node, next) = fields::node_in(bytes, features, n, k, at)?;
        at = next;
    }
    Ok(at)
}

// A tree of n nodes may come after so many.
#[tactic(auto, using(std::proofs::lemmas::Bool::Decides::nat_tests), unfolding(rules::specs::Model::count_good))]
fn count_good(sofar: u64, n: u64) -> bool
    requires { sofar ≤ 4294967295 }
    ensures { result ≡ count_good sofar n }
{
    1 <= n && n <= 4294967295 - sofar
}

// A tree after trees of so many nodes: how many it has.
fn tree_seen(bytes: &[u8], features: usize, sofar: u64, at: usize) -> Read<u64>
    requires sofar_below { sofar ≤ 4294967295 }
    requires features_below { features ≤ 4294967295 }
    ensures { result ≡ tree_seen (one_tree bytes.now features sofar at) }
{
    let (n, next) = fields::number_in(bytes, at, 4, 16, |n| count_good(sofar, n))?;
    let end = nodes_seen(bytes, features, n as usize, next)?;
    Ok((n, end))
}

// All trees: how many nodes they have.
fn trees_seen(bytes: &[u8], features: usize, trees: u32, start: usize) -> Read<u64>
    requires { features ≤ 4294967295 }
    ensures { result ≡ trees_seen 0 (trees_at bytes.now features 0 trees start) }
{
    let mut at = start;
    let mut sofar: u64 = 0;
    for _ in 0..trees {
        let (n, next) = tree_seen(bytes, features, sofar, at)?;
        at = next;
        sofar += n;
    }
    Ok((sofar, at))
}

// All of a file, with nothing after the last node.
pub fn model_seen(bytes: &[u8]) -> ModelReply
    ensures { result ≡ model_seen (model_in bytes.now) }
{
    let (header, next) = fields::header_in(bytes)?;
    let (n, place) = trees_seen(bytes, header.features as usize, header.trees, next)?;
    if place == bytes.len() {
        Ok(Sizes {
            features: header.features,
            trees: header.trees,
            nodes: n as u32,
        })
    } else {
        Err(Misread { number: 17, place })
    }
}
