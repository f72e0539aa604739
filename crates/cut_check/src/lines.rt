ghost use Rattle.std.specs.Prelude.{◌≡◌, ◌<◌, IfOk, length};
ghost use Rattle.trust_types.specs.Layout.{accounts};
ghost use Rattle.trust_types.specs.Lines.{IsNodeAmong};
ghost use Rattle.cut_check.specs.Line.{IsAmong, verdict_line};
ghost use Rattle.trust_types.specs.NodeWords.{node_name, name_of};

use crate::proofs::Proof;
use crate::verdicts::Verdict;
use std::alloc::Global;
use trust_types::{AccountNo, Name, NoMemory, Node};

/// Writes a verdict as its line, ended by LF. A node is written as its name, the root as a dash.
///
/// # Errors
/// [`NoMemory`] where there isn't enough for the line.
pub fn print_verdict(alloc: Global, proof: &Proof, verdict: &Verdict) -> Result<Vec<u8>, NoMemory>
    requires { IsAmong (accounts proof.now.graph) verdict.now }
    ensures { IfOk result (λ line. line.items ≡ verdict_line proof.now.names.items verdict.now) }
{
    let names = &proof.names;
    let line = match *verdict {
        Verdict::NoEdge(giver, taker) => {
            format!(in alloc;
                "no edge {} {}\n",
                node_name(names, giver),
                name_of(names, taker)
            )?
        }
        Verdict::NoBalance(account) => format!(in alloc;
            "no balance {}\n",
            name_of(names, account)
        )?,
        Verdict::NoRoom(node) => format!(in alloc; "no room {}\n", node_name(names, node))?,
        Verdict::NoService(account) => format!(in alloc;
            "no service {}\n",
            name_of(names, account)
        )?,
        Verdict::NoClosure(giver, taker) => {
            format!(in alloc;
                "no closure {} {}\n",
                node_name(names, giver),
                name_of(names, taker)
            )?
        }
        Verdict::NoMatch(sent, worth) => format!(in alloc; "no match {sent} {worth}\n")?,
        Verdict::Greatest(sent) => format!(in alloc; "greatest {sent}\n")?,
    };
    Ok(line.into_bytes())
}

/// How a node is written.
fn node_name(names: &[Name], node: Node) -> &str
    requires { IsNodeAmong (length names.now) node }
    ensures { result.now ≡ node_name names.now node }
{
    match node {
        Node::Root => "-",
        Node::Account(account) => name_of(names, account),
    }
}

/// An account's name.
fn name_of(names: &[Name], account: AccountNo) -> &str
    requires { account < length names.now }
    ensures { result.now ≡ name_of names.now account }
{
    names[account.index()].as_str()
}
