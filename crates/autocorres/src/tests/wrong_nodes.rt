//! Certificates with one word changed: another rule is refused at its own node, and no other word is
//! taken for the one that stands there.

use crate::tests::calls::{Answer, Files, said};
use crate::tests::checks::{CERTIFICATE, SEVEN, line_of, written};
use ac_core::Status;
use std::alloc::{AllocError, Global};
use std::test::Fail;

// What a node of a certificate's text is.
#[derive(Clone, Copy, PartialEq, Eq)]
enum Role {
    Certificate,
    Function,
    Phase,
    Rule,
    Other,
}

// A list that isn't closed yet: the word it begins with, how many parts it has so far, and which of
// the nodes found it is.
#[derive(Clone, Copy)]
struct Open<'a> {
    role: Role,
    head: &'a [u8],
    parts: usize,
    at: usize,
}

// A node of the text: its phase and its number there, where it is a rule, and where it stands.
#[derive(Clone, Copy)]
struct Node<'a> {
    role: Role,
    phase: &'a [u8],
    number: usize,
    start: usize,
    end: usize,
}

// The word that begins there.
fn word_at(text: &[u8], start: usize) -> &[u8] {
    let rest = text.get(start..).unwrap_or(&[]);
    let length = rest
        .iter()
        .position(|byte| matches!(byte, b' ' | b'(' | b')' | b'\n'));
    rest.get(..length.unwrap_or(rest.len())).unwrap_or(&[])
}

// Whether a rule of that name has something else before its children.
fn has_data(phase: &[u8], head: &[u8]) -> bool {
    match phase {
        b"heap" => matches!(head, b"drop" | b"known"),
        b"word" => matches!(head, b"bind" | b"loop" | b"recast" | b"word" | b"eq"),
        b"equal" => matches!(head, b"trans" | b"ret_one"),
        _ => false,
    }
}

// What the next part of a list is.
fn role_in(around: &Open, phase: &[u8]) -> Role {
    match (around.role, around.parts) {
        (Role::Certificate, 2..) => Role::Function,
        (Role::Function, 3..) => Role::Phase,
        (Role::Phase, 2) => Role::Rule,
        (Role::Rule, 0) => Role::Other,
        (Role::Rule, 1) if has_data(phase, around.head) => Role::Other,
        (Role::Rule, _) => Role::Rule,
        _ => Role::Other,
    }
}

// The nodes that were found so far, the lists that are open, and the phase and how many rules it has.
#[derive(Drop)]
struct Reader<'a> {
    text: &'a [u8],
    nodes: Vec<Node<'a>>,
    open: Vec<Open<'a>>,
    phase: &'a [u8],
    rules: usize,
}

impl<'a> Reader<'a> {
    // What the next node is, which is one part more of the innermost list.
    fn next_role(&mut self) -> Role {
        let Some(around) = self.open.last_mut() else {
            return Role::Certificate;
        };
        let role = role_in(around, self.phase);
        around.parts = around.parts.saturating_add(1);
        role
    }

    // The node that begins there.
    fn begin(&mut self, start: usize) -> Result<(), AllocError> {
        let role = self.next_role();
        let head = word_at(self.text, start.saturating_add(1));
        let at = self.nodes.len();
        let node = Node {
            role,
            number: self.number(role, head),
            phase: self.phase,
            start,
            end: start.saturating_add(word_at(self.text, start).len()),
        };
        self.nodes.push(node)?;
        self.open(start, role, head, at)
    }

    // How many rules of its phase come before the next node, which may be a phase or a rule itself.
    fn number(&mut self, role: Role, head: &'a [u8]) -> usize {
        if role == Role::Phase {
            self.phase = head;
            self.rules = 0;
        }
        let number = self.rules;
        if role == Role::Rule {
            self.rules = number.saturating_add(1);
        }
        number
    }

    // The list of the node that begins there, if it is a list.
    fn open(
        &mut self,
        start: usize,
        role: Role,
        head: &'a [u8],
        at: usize,
    ) -> Result<(), AllocError> {
        if self.text.get(start) != Some(&b'(') {
            return Ok(());
        }
        let parts = 0;
        Ok(
            self.open.push(Open {
                role,
                head,
                parts,
                at,
            })?,
        )
    }

    // The innermost list ends before that place.
    fn close(&mut self, end: usize) {
        if let Some(closed) = self.open.pop()
            && let Some(node) = self.nodes.get_mut(closed.at)
        {
            node.end = end;
        }
    }
}

// All nodes of a certificate's text, in preorder.
fn nodes_of(alloc: Global, text: &[u8]) -> Result<Vec<Node>, AllocError> {
    let mut reader = Reader {
        text,
        nodes: Vec::new(alloc),
        open: Vec::new(alloc),
        phase: &[],
        rules: 0,
    };
    let mut before = b' ';
    for (start, byte) in text.iter().enumerate() {
        if *byte == b')' {
            reader.close(start.saturating_add(1));
        } else if *byte == b'(' || matches!(before, b' ' | b'(') && !matches!(byte, b' ' | b'\n') {
            reader.begin(start)?;
        }
        before = *byte;
    }
    Ok(reader.nodes)
}

// The text with this node made another.
fn with(alloc: Global, text: &[u8], node: &Node, word: &str) -> Result<Vec<u8>, AllocError> {
    let mut made = Vec::from_slice(alloc, text.get(..node.start).unwrap_or(&[]))?;
    made.extend_from_slice(word.as_bytes())?;
    made.extend_from_slice(text.get(node.end..).unwrap_or(&[]))?;
    Ok(made)
}

// A rule without children. Few nodes are instances of it, and those are left as they are.
fn other_rule(phase: &[u8]) -> &'static str {
    match phase {
        b"exception" => "throw",
        b"local" => "pick",
        b"heap" => "pointer",
        b"word" => "pick_int",
        _ => "if_const",
    }
}

const COUNT: &str =
    "unsigned f(unsigned *p, unsigned n){unsigned c=0; while(*p<n){c=c+1; p=p+1;} return c;}";

const LOOP: &str = "unsigned f(unsigned a){while(a)a=a/2; return a;}";

const BYTES: &str = "unsigned f(unsigned *p){unsigned char *c=(unsigned char *)p; return *c;}";

// What is said of the certificate with this node made another.
fn checked(
    alloc: Global,
    text: &str,
    certificate: &[u8],
    node: &Node,
    word: &str,
) -> Result<Answer, AllocError> {
    let changed = with(alloc, certificate, node, word)?;
    let files = Files::of(text.as_bytes()).with(&changed);
    said(alloc, "check a.c c.cert", &files)
}

// What is said of a node that is another rule.
#[derive(Clone, Copy, PartialEq, Eq)]
enum Refusal {
    Wrong,
    None,
    Other,
}

// What is said of the node of that number in the text where it is another rule.
fn refusal_of(
    alloc: Global,
    text: &str,
    certificate: &[u8],
    node: &Node,
    at: usize,
) -> Result<Refusal, AllocError> {
    let answer = checked(alloc, text, certificate, node, other_rule(node.phase))?;
    let phase = str::from_utf8(node.phase).unwrap_or("");
    let wrong = format!(in alloc; "no: f {phase} {}", node.number)?;
    if answer.is(wrong.as_str()) {
        return Ok(Refusal::Wrong);
    }
    let none = format!(in alloc; "text: certificate shape at {at}")?;
    Ok(if answer.is(none.as_str()) {
        Refusal::None
    } else {
        Refusal::Other
    })
}

// How many nodes of rules become another rule, and how many become none, where each is refused at its
// own place.
fn refused(
    alloc: Global,
    text: &str,
    certificate: &[u8],
) -> Result<Option<(u32, u32)>, AllocError> {
    let (mut wrong, mut none) = (0u32, 0u32);
    for (at, node) in nodes_of(alloc, certificate)?.iter().enumerate() {
        let rule = other_rule(node.phase).as_bytes();
        if node.role == Role::Rule && word_at(certificate, node.start) != rule {
            match refusal_of(alloc, text, certificate, node, at)? {
                Refusal::Wrong => wrong = wrong.saturating_add(1),
                Refusal::None => none = none.saturating_add(1),
                Refusal::Other => return Ok(None),
            }
        }
    }
    Ok(Some((wrong, none)))
}

#[test]
fn other_rules_are_refused_at_their_nodes(rt: HostRuntime) -> Result<(), Fail> {
    let seven = line_of(rt.alloc(), CERTIFICATE)?;
    assert!(rt; refused(rt.alloc(), SEVEN, &seven)? == Some((42, 1)));
    for (text, want) in [(COUNT, (137, 23)), (BYTES, (88, 0))] {
        let certificate = written(rt.alloc(), "translate a.c", text)?;
        let found = refused(rt.alloc(), text, &certificate)?;
        assert!(rt; found == Some(want), "{text}: {found:?}");
    }
    Ok(())
}

// Whether what was accepted is so no more where a word is another.
fn is_refused(
    alloc: Global,
    text: &str,
    certificate: &[u8],
    node: &Node,
) -> Result<bool, AllocError> {
    let answer = checked(alloc, text, certificate, node, "other")?;
    Ok(matches!(answer.status, Status::No | Status::Text))
}

// The first node whose word can be another.
fn first_accepted(alloc: Global, text: &str) -> Result<Option<usize>, AllocError> {
    let certificate = written(alloc, "translate a.c", text)?;
    for (at, node) in nodes_of(alloc, &certificate)?.iter().enumerate() {
        let is_word = !word_at(&certificate, node.start).is_empty();
        if is_word && !is_refused(alloc, text, &certificate, node)? {
            return Ok(Some(at));
        }
    }
    Ok(None)
}

#[test]
fn no_other_word_is_accepted(rt: HostRuntime) -> Result<(), Fail> {
    for text in [SEVEN, LOOP, BYTES] {
        let found = first_accepted(rt.alloc(), text)?;
        assert!(rt; found.is_none(), "{text}: {found:?}");
    }
    Ok(())
}
