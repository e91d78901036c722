// What C gives and takes where a conversion of `rules` cannot stand for it: a scale as a flag with a number beside, as C has it; the number of a refusal, which has no type of its own;
// and a node that is read, which asks something of its child.
#![tactic(auto)]

ghost use Rattle.std.specs.Prelude.{◌≡◌, ◌<◌};
ghost use Rattle.rules.specs.Answers.{reply_told, node_told};
ghost use Rattle.rules.specs.Plain.{scale_of, node_numbers};
ghost use Rattle.c_types.specs.Plain.{no_node};
ghost use Rattle.c_types.specs.Nodes.{true_child_of, child_of};
ghost use Rattle.std.specs.Prelude.{Ok, Some};

use rules::{Kind, Node, NodeReply, NodeTold, Reply, Scale};

pub fn scale_of(bymass: bool, mass: f64) -> Scale
    ensures { result ≡ scale_of bymass mass }
{
    if bymass {
        Scale::ByMass(mass)
    } else {
        Scale::Normalised
    }
}

pub fn number_of(reply: Reply) -> u32
    ensures { result ≡ reply_told reply }
{
    match reply {
        Ok(()) => 0,
        Err(n) => n,
    }
}

fn no_node(number: u32) -> NodeTold
    ensures { node_numbers result ≡ no_node number }
{
    NodeTold {
        number,
        there: false,
        value: 0.0,
        feature: 0,
        threshold: 0.0,
        score: 0.0,
        truechild: 0,
        falsechild: 0,
    }
}

// The false child's number is the true child's and one: it must not wrap.
fn node_read(node: Node) -> NodeTold
    requires { true_child_of node.kind < 4294967295 }
    ensures { node_numbers result ≡ node_told (Ok (Some node)) }
{
    let value = node.value;
    match node.kind {
        Kind::Leaf => NodeTold {
            number: 0,
            there: true,
            value,
            feature: 0,
            threshold: 0.0,
            score: 0.0,
            truechild: 0,
            falsechild: 0,
        },
        Kind::Split(fork) => NodeTold {
            number: 0,
            there: true,
            value,
            feature: fork.cut.feature,
            threshold: fork.cut.threshold,
            score: fork.score,
            truechild: fork.children,
            falsechild: fork.children + 1,
        },
    }
}

pub fn node_told_of(reply: NodeReply) -> NodeTold
    requires { child_of reply < 4294967295 }
    ensures { node_numbers result ≡ node_told reply }
{
    match reply {
        Ok(Some(node)) => node_read(node),
        Ok(None) => no_node(0),
        Err(n) => no_node(n),
    }
}
