//! A place in a tape, from which values are looked up.
ghost use Rattle.std.specs.Prelude.{◌≡◌, ◌<◌, ℕ, List, ◌∷◌, map, length, drop, Some, None, option_map, MatchOption, OnSome};
ghost use Rattle.json.specs.Token.{Token};
ghost use Rattle.json.specs.Json.{Json, array, object, value};
ghost use Rattle.json.specs.Json as spec;
ghost use Rattle.json.specs.Tape.{node_token, Linked};
ghost use Rattle.json.specs.Find.{BeginsWith, InItems, InMembers, NextItem, NextMember, get, Finds, is_null, as_str, as_number, as_bool, as_array, as_object};

use json::Node;
use std::marker::Model;

/// A place in a tape. Contracts see the tokens from here on.
#[derive(Drop)]
pub struct Element<'t, 'a> {
    nodes: &'t [Node<'a>],
    at: usize,
}

impl<'t, 'a> Model for Element<'t, 'a> {
    ghost use Rattle.std.specs.Prelude.{List, map, drop};
    ghost use Rattle.json.specs.Token.{Token, tokens_code};
    ghost use Rattle.json.specs.Tape.{node_token, Linked};

    ghost Value = { List Token };

    ghost coded = { tokens_code };

    ghost view = { λ a. drop a.at (map node_token a.nodes.now) };

    ghost invariant = { λ a. Linked (map node_token a.nodes.now) 0 a.nodes.now };
}

/// The number of the node after the value that begins at number `i`.
fn after(nodes: &[Node<'_>], i: usize) -> usize
    requires { (i < length nodes.now) × Linked (map node_token nodes.now) 0 nodes.now }
    ensures value { (depth : ℕ) (j : Json) (rest : List Token)
        → value depth (drop i (map node_token nodes.now)) ≡ Some (j, rest)
        → rest ≡ drop result (map node_token nodes.now) }
    ensures later { i < result }
{
    match nodes[i] {
        Node::Object(end) | Node::Array(end) => end,
        _ => i + 1,
    }
}

impl<'t, 'a> Element<'t, 'a> {
    /// The first place.
    pub(super) fn first(nodes: &'t [Node<'a>]) -> Element<'t, 'a>
        requires { Linked (map node_token nodes.now) 0 nodes.now }
        ensures { result ≡ map node_token nodes.now }
    {
        Element { nodes, at: 0 }
    }

    /// This place again.
    pub fn again(&self) -> Element<'t, 'a>
        ensures { result ≡ self.now }
    {
        Element {
            nodes: self.nodes,
            at: self.at,
        }
    }

    fn node(&self) -> Node<'a>
        ensures { (j : Json) → BeginsWith self.now j
            → self.now ≡ node_token result ∷ drop 1 self.now }
    {
        if self.at < self.nodes.len() {
            self.nodes[self.at]
        } else {
            Node::Null
        }
    }

    /// The text, where this is one.
    pub fn as_str(&self) -> Option<&'a str>
        ensures { (j : Json) → BeginsWith self.now j → option_map (λ s. s.now) result ≡ as_str j }
    {
        if let Node::String(text) = self.node() {
            Some(text)
        } else {
            None
        }
    }

    /// The text of the number, where this is one.
    pub fn as_number(&self) -> Option<&'a str>
        ensures { (j : Json) → BeginsWith self.now j
            → option_map (λ s. s.now) result ≡ as_number j }
    {
        if let Node::Number(text) = self.node() {
            Some(text)
        } else {
            None
        }
    }

    /// The boolean, where this is one.
    pub fn as_bool(&self) -> Option<bool>
        ensures { (j : Json) → BeginsWith self.now j → result ≡ as_bool j }
    {
        if let Node::Bool(b) = self.node() {
            Some(b)
        } else {
            None
        }
    }

    /// Whether this is `null`.
    pub fn is_null(&self) -> bool
        ensures { (j : Json) → BeginsWith self.now j → result ≡ is_null j }
    {
        if let Node::Null = self.node() {
            true
        } else {
            false
        }
    }

    /// The items, where this is an array.
    pub fn items(&self) -> Option<Contents<'t, 'a>>
        ensures { (j : Json) → BeginsWith self.now j
            → MatchOption result (as_array j ≡ None)
            (λ rest. (js : spec.Items) × (j ≡ array js) × InItems rest js) }
    {
        if let Node::Array(_) = self.node() {
            Some(Contents {
                next: self.inside(),
            })
        } else {
            None
        }
    }

    /// The members, where this is an object.
    pub fn members(&self) -> Option<Contents<'t, 'a>>
        ensures { (j : Json) → BeginsWith self.now j
            → MatchOption result (as_object j ≡ None)
            (λ rest. (ms : spec.Members) × (j ≡ object ms) × InMembers rest ms) }
    {
        if let Node::Object(_) = self.node() {
            Some(Contents {
                next: self.inside(),
            })
        } else {
            None
        }
    }

    /// The last member of that name, where this is an object.
    pub fn get(&self, name: &str) -> Option<Element<'t, 'a>>
        ensures { (j : Json) → BeginsWith self.now j → Finds result (get name.now j) }
    {
        let mut members = self.members()?;
        let mut found = None;
        while let Some((key, member)) = members.next_member() {
            if key == name {
                found = Some(member);
            }
        }
        found
    }

    /// The place after a bracket that opens.
    fn inside(&self) -> Element<'t, 'a>
        ensures { (j : Json) → BeginsWith self.now j → result ≡ drop 1 self.now }
    {
        Element {
            nodes: self.nodes,
            at: self.at.saturating_add(1),
        }
    }

    fn take_item(&mut self) -> Option<Element<'t, 'a>>
        ensures value { NextItem self.old result self.new }
        ensures shorter { OnSome result (length self.new < length self.old) }
    {
        let (nodes, at) = (self.nodes, self.at);
        if at >= nodes.len() {
            return None;
        }
        if let Node::EndArray = nodes[at] {
            return None;
        }
        self.at = after(nodes, at);
        Some(Element { nodes, at })
    }

    fn take_member(&mut self) -> Option<(&'a str, Element<'t, 'a>)>
        ensures value { NextMember self.old (option_map (λ m. (m.0.now, m.1)) result) self.new }
        ensures shorter { OnSome result (length self.new < length self.old) }
    {
        let (nodes, at) = (self.nodes, self.at);
        if at >= nodes.len().saturating_sub(1) {
            return None;
        }
        let Node::Key(key) = nodes[at] else {
            return None;
        };
        self.at = after(nodes, at + 1);
        Some((key, Element { nodes, at: at + 1 }))
    }
}

/// An iterator over the items of an array or the members of an object. Contracts see the tokens from the next one on.
#[derive(Drop)]
pub struct Contents<'t, 'a> {
    next: Element<'t, 'a>,
}

impl<'t, 'a> Model for Contents<'t, 'a> {
    ghost use Rattle.std.specs.Prelude.{List};
    ghost use Rattle.json.specs.Token.{Token, tokens_code};

    ghost Value = { List Token };

    ghost coded = { tokens_code };

    ghost view = { λ a. a.next };
}

impl<'t, 'a> Contents<'t, 'a> {
    /// The next item of an array, if there is one.
    pub fn next_item(&mut self) -> Option<Element<'t, 'a>>
        ensures value { NextItem self.old result self.new }
        ensures shorter { OnSome result (length self.new < length self.old) }
    {
        self.next.take_item()
    }

    /// The next member of an object with its name, if there is one.
    pub fn next_member(&mut self) -> Option<(&'a str, Element<'t, 'a>)>
        ensures value { NextMember self.old (option_map (λ m. (m.0.now, m.1)) result) self.new }
        ensures shorter { OnSome result (length self.new < length self.old) }
    {
        self.next.take_member()
    }
}
