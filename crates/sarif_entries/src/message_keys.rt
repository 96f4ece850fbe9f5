//! The keys of messages: one under which an entry is filed by what it names of a message, and those by which the
//! entries for a result's message are found; also among the entries of its snippet.
ghost use Rattle.std.specs.Prelude.{◌≡◌, ◌++◌, map, IfOk, OnOk};
ghost use Rattle.std.specs.Option.{option_copied};
ghost use Rattle.sarif_entries.specs.Internal.Filing as said;

use sarif_model::{Message, Record, Sequence, Text};
use std::alloc::{AllocError, Global};

/// Adds the string, if there is one.
fn add_if_there(key: &mut Sequence<Text>, text: Option<&Text>) -> Result<(), AllocError>
    ensures { OnOk result (key.new ≡ key.old ++ said.listed (option_copied text.entry)) }
{
    if let Some(text) = text {
        key.push(text.clone()?)?;
    }
    Ok(())
}

/// Adds the strings in order.
fn add_all(key: &mut Sequence<Text>, texts: &[Text]) -> Result<(), AllocError>
    ensures { OnOk result (key.new ≡ key.old ++ texts.now) }
{
    for text in texts {
        key.push(text.clone()?)?;
    }
    Ok(())
}

/// The key of a URI, of a message's text or id, and of arguments.
pub(crate) fn key_of(
    alloc: Global,
    uri: Option<&Text>,
    head: Option<&Text>,
    args: &[Text],
) -> Result<Sequence<Text>, AllocError>
    ensures { IfOk result (λ key. key
        ≡ said.key_of (option_copied uri.entry) (option_copied head.entry) args.now) }
{
    let mut key = Sequence::new(alloc);
    add_if_there(&mut key, uri)?;
    add_if_there(&mut key, head)?;
    add_all(&mut key, args)?;
    Ok(key)
}

/// Adds a result's keys for its text or its id: without its arguments and, if it has some, with them.
fn add_keys_under(
    alloc: Global,
    keys: &mut Vec<Sequence<Text>>,
    uri: &Option<Text>,
    head: &Option<Text>,
    args: &[Text],
) -> Result<(), AllocError>
    ensures { OnOk result (keys.new.items
        ≡ keys.old.items ++ said.keys_under uri.now head.now args.now) }
{
    keys.push(key_of(alloc, uri.as_ref(), head.as_ref(), &[])?)?;
    if !args.is_empty() {
        keys.push(key_of(alloc, uri.as_ref(), head.as_ref(), args)?)?;
    }
    Ok(())
}

/// Adds a result's keys for its text, for its id, and for its arguments alone.
fn add_keys_at(
    alloc: Global,
    keys: &mut Vec<Sequence<Text>>,
    uri: &Option<Text>,
    message: &Message,
) -> Result<(), AllocError>
    ensures { OnOk result (keys.new.items ≡ keys.old.items ++ said.keys_at uri.now message.now) }
{
    let args = message.args.as_slice();
    if message.text.is_some() {
        add_keys_under(alloc, keys, uri, &message.text, args)?;
    }
    if message.id.is_some() {
        add_keys_under(alloc, keys, uri, &message.id, args)?;
    }
    if !args.is_empty() {
        keys.push(key_of(alloc, uri.as_ref(), None, args)?)?;
    }
    Ok(())
}

/// A result's keys for its message, without its URI and, if it has one, with it.
pub fn message_keys(alloc: Global, record: &Record) -> Result<Vec<Sequence<Text>>, AllocError>
    ensures { IfOk result (λ keys. keys.items ≡ said.message_keys «record».now) }
{
    let mut keys = Vec::new(alloc);
    add_keys_at(alloc, &mut keys, &None, &record.message)?;
    if record.place.uri.is_some() {
        add_keys_at(alloc, &mut keys, &record.place.uri, &record.message)?;
    }
    Ok(keys)
}

/// Adds the empty key and, if there is a URI, its own.
fn add_keys_of_uri(
    alloc: Global,
    keys: &mut Vec<Sequence<Text>>,
    uri: &Option<Text>,
) -> Result<(), AllocError>
    ensures { OnOk result (keys.new.items ≡ keys.old.items ++ said.keys_of_uri uri.now) }
{
    keys.push(key_of(alloc, None, None, &[])?)?;
    if uri.is_some() {
        keys.push(key_of(alloc, uri.as_ref(), None, &[])?)?;
    }
    Ok(())
}

/// The key of a URI and of a fingerprint.
pub(crate) fn key_of_pair(
    alloc: Global,
    uri: Option<&Text>,
    name: &Text,
    value: &Text,
) -> Result<Sequence<Text>, AllocError>
    ensures { IfOk result (λ key. key
        ≡ said.key_of_pair (option_copied uri.entry) (name.now, value.now)) }
{
    let mut key = Sequence::new(alloc);
    add_if_there(&mut key, uri)?;
    add_if_there(&mut key, Some(name))?;
    key.push(value.clone()?)?;
    Ok(key)
}

/// Adds the keys of the URI, if there is one, and of these fingerprints.
fn add_keys_with_uri(
    alloc: Global,
    keys: &mut Vec<Sequence<Text>>,
    uri: &Option<Text>,
    pairs: &[(Text, Text)],
) -> Result<(), AllocError>
    ensures { OnOk result (keys.new.items
        ≡ keys.old.items ++ map (said.key_of_pair uri.now) pairs.now) }
{
    for pair in pairs {
        keys.push(key_of_pair(alloc, uri.as_ref(), &pair.0, &pair.1)?)?;
    }
    Ok(())
}

/// Adds the keys of these fingerprints, without the URI and, if there is one, with it.
fn add_keys_of_pairs(
    alloc: Global,
    keys: &mut Vec<Sequence<Text>>,
    uri: &Option<Text>,
    pairs: &[(Text, Text)],
) -> Result<(), AllocError>
    ensures { OnOk result (keys.new.items
        ≡ keys.old.items ++ said.keys_of_pairs uri.now pairs.now) }
{
    add_keys_with_uri(alloc, keys, &None, pairs)?;
    if uri.is_some() {
        add_keys_with_uri(alloc, keys, uri, pairs)?;
    }
    Ok(())
}

/// A result's keys among the entries of its snippet: for its message, its URI and its fingerprints.
pub fn keys_beside_snippet(
    alloc: Global,
    record: &Record,
) -> Result<Vec<Sequence<Text>>, AllocError>
    ensures { IfOk result (λ keys. keys.items ≡ said.keys_beside «record».now) }
{
    let mut keys = message_keys(alloc, record)?;
    let uri = &record.place.uri;
    add_keys_of_uri(alloc, &mut keys, uri)?;
    add_keys_of_pairs(alloc, &mut keys, uri, record.full.as_slice())?;
    add_keys_of_pairs(alloc, &mut keys, uri, record.partial.as_slice())?;
    Ok(keys)
}
