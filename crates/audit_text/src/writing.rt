//! The canonical text of a proof, as it is written.

ghost use Rattle.std.specs.Prelude.{◌≡◌, ◌≤◌, ◌<◌, ◌^◌, ℕ, true, ◌∷◌, [], ◌++◌, All, IfOk, OnOk, codes, decimal, flat_map, length};
ghost use Rattle.trust_types.specs.Graph.{KeepsLevels};
ghost use Rattle.frozen.specs.Sites.{degree, given};
ghost use Rattle.trust_types.specs.Lines.{place};
ghost use Rattle.trust_types.specs.Names.{IsName};
ghost use Rattle.trust_types.specs.NameLists.{AreApart};
ghost use Rattle.trust_types.specs.Rows.{GivesEachOnce};
ghost use Rattle.trust_types.specs.Tables.{has_grade};
ghost use Rattle.frozen.specs.Revision.{certificates};
ghost use Rattle.roster_form.specs.LevelRosters.{lists_of, AreAmong};
ghost use Rattle.trust_types.specs.NodeWords.{name_of, node_name};
ghost use Rattle.site_text.specs.View.{of_frozen};
ghost use Rattle.audit_text.specs.Canonical.{line, levels_words, account_words, seed_words, cert_words, level_words, flow_words, IsCanonical, IsReadAs};
ghost use Rattle.audit_text.specs.inner.Writing.{entries_words, count_words, seeds_below, first_given, certs_below, lines_for};

use frozen::Frozen;
use itoa::Buffer;
use roster_form::LevelRoster;
use std::alloc::Global;
use trust_types::{AccountNo, Caps, Cert, CertGraph, FlowLine, Level, NoMemory, Node};

/// About as many bytes as the line of an account or of a certificate has.
const LINE: usize = 32;

/// Writes the proof text of a roster over the graph on which it was found: the site's table, accounts, seeds and standing
/// certificates, and then the roster's level, flow and cut. It is the canonical text of these, and where the table has each
/// level of the graph and the roster's grade, it is read again as a proof of the same. One pass over the accounts, the
/// certificates and the roster's lists.
///
/// # Errors
/// [`NoMemory`] where there isn't enough for the text.
pub fn proof_text(alloc: Global, frozen: &Frozen, roster: &LevelRoster) -> Result<Vec<u8>, NoMemory>
    requires among { AreAmong (certificates frozen.now).accounts (lists_of roster.now) }
    ensures canonical { IfOk result (λ text. IsCanonical (of_frozen frozen.now) roster.now.level (lists_of roster.now) text.items) }
    ensures readable { KeepsLevels frozen.now.caps (certificates frozen.now) → has_grade frozen.now.caps roster.now.level ≡ true →
        IfOk result (λ text. IsReadAs (of_frozen frozen.now) roster.now.level (lists_of roster.now) text.items) }
{
    let lines = frozen.accounts() as usize + frozen.certs() as usize;
    let mut text = Vec::with_capacity(alloc, LINE * lines)?;
    let caps = frozen.caps();
    put_caps(&mut text, caps.entries())?;
    put_levels(&mut text, caps)?;
    put_accounts(&mut text, frozen)?;
    put_seeds(&mut text, frozen)?;
    put_certs(&mut text, frozen)?;
    put_level(&mut text, roster.level)?;
    put_flow(&mut text, frozen, &roster.flow)?;
    put_nodes(&mut text, b"pass", frozen, &roster.pass)?;
    put_nodes(&mut text, b"full", frozen, &roster.full)?;
    Ok(text)
}

/// The line `caps`, with the table's entries.
fn put_caps(text: &mut Vec<u8>, entries: &[u32]) -> Result<(), NoMemory>
    ensures { OnOk result (text.new.items ≡ text.old.items ++ line (entries_words entries.now)) }
{
    text.extend_from_slice(b"caps")?;
    for entry in entries {
        put_number(text, *entry)?;
    }
    text.push(b'\n')?;
    Ok(())
}

/// The line `levels`, where there aren't four.
#[tactic(auto, using(crate::proofs::Written::count_none, crate::proofs::Written::count_done))]
fn put_levels(text: &mut Vec<u8>, caps: &Caps) -> Result<(), NoMemory>
    ensures { OnOk result (text.new.items ≡ text.old.items ++ flat_map line (levels_words caps.now)) }
{
    let levels = caps.levels();
    if levels == 4 {
        return Ok(());
    }
    put_count(text, levels)?;
    Ok(())
}

/// The line `levels` of that number.
fn put_count(text: &mut Vec<u8>, levels: u32) -> Result<(), NoMemory>
    ensures { OnOk result (text.new.items ≡ text.old.items ++ line (count_words levels)) }
{
    text.extend_from_slice(b"levels")?;
    put_number(text, levels)?;
    text.push(b'\n')?;
    Ok(())
}

/// A line `account` for each name, all of which differ.
fn put_accounts(text: &mut Vec<u8>, frozen: &Frozen) -> Result<(), NoMemory>
    ensures written { OnOk result (text.new.items ≡ text.old.items ++ lines_for account_words frozen.now.names) }
    ensures named { OnOk result (All IsName frozen.now.names) }
    ensures apart { AreApart frozen.now.names }
{
    for account in 0..frozen.accounts() {
        text.extend_from_slice(b"account")?;
        put_name(text, frozen, AccountNo(account))?;
        text.push(b'\n')?;
    }
    Ok(())
}

/// A line `seed` for each seed.
fn put_seeds(text: &mut Vec<u8>, frozen: &Frozen) -> Result<(), NoMemory>
    ensures { OnOk result (text.new.items ≡ text.old.items ++ lines_for (seed_words frozen.now.names) (seeds_below (certificates frozen.now) (certificates frozen.now).accounts)) }
{
    for number in 0..frozen.accounts() {
        let account = AccountNo(number);
        if frozen.is_seed(account) {
            put_seed(text, frozen, account)?;
        }
    }
    Ok(())
}

fn put_seed(text: &mut Vec<u8>, frozen: &Frozen, account: AccountNo) -> Result<(), NoMemory>
    requires { account < (certificates frozen.now).accounts }
    ensures { OnOk result (text.new.items ≡ text.old.items ++ line (seed_words frozen.now.names account)) }
{
    text.extend_from_slice(b"seed")?;
    put_name(text, frozen, account)?;
    text.push(b'\n')?;
    Ok(())
}

/// A line `cert` for each standing certificate, by giver and taker.
fn put_certs(text: &mut Vec<u8>, frozen: &Frozen) -> Result<(), NoMemory>
    ensures { OnOk result (text.new.items ≡ text.old.items ++ lines_for (cert_words frozen.now.names) (certs_below (degree frozen.now.parts) (given frozen.now.parts) (certificates frozen.now).accounts)) }
{
    for giver in 0..frozen.accounts() {
        put_certs_of(text, frozen, AccountNo(giver))?;
    }
    Ok(())
}

/// The lines of the certificates that one account gives.
fn put_certs_of(text: &mut Vec<u8>, frozen: &Frozen, giver: AccountNo) -> Result<(), NoMemory>
    requires giver { giver < (certificates frozen.now).accounts }
    requires readers { GivesEachOnce (certificates frozen.now) (degree frozen.now.parts) (given frozen.now.parts) }
    ensures { OnOk result (text.new.items ≡ text.old.items ++ lines_for (cert_words frozen.now.names) (first_given (given frozen.now.parts) giver (degree frozen.now.parts giver))) }
{
    for i in 0..frozen.degree(giver) {
        put_cert(text, frozen, frozen.given(giver, i))?;
    }
    Ok(())
}

fn put_cert(text: &mut Vec<u8>, frozen: &Frozen, cert: Cert) -> Result<(), NoMemory>
    requires giver { cert.from < (certificates frozen.now).accounts }
    requires taker { cert.to < (certificates frozen.now).accounts }
    ensures { OnOk result (text.new.items ≡ text.old.items ++ line (cert_words frozen.now.names cert)) }
{
    text.extend_from_slice(b"cert")?;
    put_name(text, frozen, cert.from)?;
    put_name(text, frozen, cert.to)?;
    put_word(text, cert.level.name().as_bytes())?;
    text.push(b'\n')?;
    Ok(())
}

/// The line `level`.
fn put_level(text: &mut Vec<u8>, level: Level) -> Result<(), NoMemory>
    ensures { OnOk result (text.new.items ≡ text.old.items ++ line (level_words level)) }
{
    text.extend_from_slice(b"level")?;
    put_word(text, level.name().as_bytes())?;
    text.push(b'\n')?;
    Ok(())
}

/// A line `flow` for each line of a flow.
fn put_flow(text: &mut Vec<u8>, frozen: &Frozen, flow: &[FlowLine]) -> Result<(), NoMemory>
    requires givers { All (λ l. place l.from ≤ (certificates frozen.now).accounts) flow.now }
    requires takers { All (λ l. l.to < (certificates frozen.now).accounts) flow.now }
    ensures written { OnOk result (text.new.items ≡ text.old.items ++ lines_for (flow_words frozen.now.names) flow.now) }
    ensures small { OnOk result (All (λ l. l.units < 2 ^ 32) flow.now) }
{
    for edge in flow {
        put_edge(text, frozen, edge)?;
    }
    Ok(())
}

fn put_edge(text: &mut Vec<u8>, frozen: &Frozen, edge: &FlowLine) -> Result<(), NoMemory>
    requires giver { place edge.now.from ≤ (certificates frozen.now).accounts }
    requires taker { edge.now.to < (certificates frozen.now).accounts }
    ensures written { OnOk result (text.new.items ≡ text.old.items ++ line (flow_words frozen.now.names edge.now)) }
    ensures small { OnOk result (edge.now.units < 2 ^ 32) }
{
    text.extend_from_slice(b"flow")?;
    put_node(text, frozen, edge.from)?;
    put_name(text, frozen, edge.to)?;
    put_number(text, edge.units)?;
    text.push(b'\n')?;
    Ok(())
}

/// A line of that keyword for each node.
fn put_nodes(
    text: &mut Vec<u8>,
    keyword: &[u8],
    frozen: &Frozen,
    nodes: &[Node],
) -> Result<(), NoMemory>
    requires { All (λ x. place x ≤ (certificates frozen.now).accounts) nodes.now }
    ensures { OnOk result (text.new.items ≡ text.old.items ++ lines_for (λ x. keyword.now ∷ node_name frozen.now.names x ∷ []) nodes.now) }
{
    for node in nodes {
        text.extend_from_slice(keyword)?;
        put_node(text, frozen, *node)?;
        text.push(b'\n')?;
    }
    Ok(())
}

/// A space and the name of a node: a dash, where it is the root.
fn put_node(text: &mut Vec<u8>, frozen: &Frozen, node: Node) -> Result<(), NoMemory>
    requires { place node ≤ (certificates frozen.now).accounts }
    ensures { OnOk result (text.new.items ≡ text.old.items ++ 32 ∷ node_name frozen.now.names node) }
{
    match node {
        Node::Root => put_word(text, b"-"),
        Node::Account(account) => put_name(text, frozen, account),
    }
}

/// A space and the name of an account.
fn put_name(text: &mut Vec<u8>, frozen: &Frozen, account: AccountNo) -> Result<(), NoMemory>
    requires { account < (certificates frozen.now).accounts }
    ensures written { OnOk result (text.new.items ≡ text.old.items ++ 32 ∷ name_of frozen.now.names account) }
    ensures named { IsName (name_of frozen.now.names account) }
{
    let name = frozen.name(account);
    put_word(text, name.bytes())
}

/// A space and a number.
fn put_number(text: &mut Vec<u8>, number: u32) -> Result<(), NoMemory>
    ensures { OnOk result (text.new.items ≡ text.old.items ++ 32 ∷ decimal number) }
{
    let mut buffer = Buffer::new();
    put_word(text, buffer.format(number).as_bytes())
}

/// A space and a word.
fn put_word(text: &mut Vec<u8>, word: &[u8]) -> Result<(), NoMemory>
    ensures { OnOk result (text.new.items ≡ text.old.items ++ 32 ∷ word.now) }
{
    text.push(b' ')?;
    text.extend_from_slice(word)?;
    Ok(())
}
