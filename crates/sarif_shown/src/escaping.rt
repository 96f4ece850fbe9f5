//! Strings in which some characters are replaced.
ghost use Rattle.std.specs.Prelude.{◌≡◌, ◌++◌, OnOk, string_bytes};
ghost use Rattle.std.specs.List.{list_any};
ghost use Rattle.sarif_shown.specs.declared.escaping.Escaping.TheVariants as way;
ghost use Rattle.sarif_shown.specs.Internal.EscapedBytes.{escapes};

use std::alloc::{AllocError, Global};

/// Whether one of these bytes is a percent sign. It doesn't end early, so that many bytes are compared at a time.
fn has_percent(bytes: &[u8]) -> bool
    ensures { result ≡ list_any (escapes way.Message) bytes.now }
{
    let mut any = false;
    for byte in bytes {
        any |= *byte == b'%';
    }
    any
}

fn is_replaced_in_property(byte: u8) -> bool
    ensures { result ≡ escapes way.Property byte }
{
    byte == b'%' || byte == b':' || byte == b','
}

/// Whether one of these bytes is replaced in a property of a workflow command. It doesn't end early either.
fn is_any_replaced_in_property(bytes: &[u8]) -> bool
    ensures { result ≡ list_any (escapes way.Property) bytes.now }
{
    let mut any = false;
    for byte in bytes {
        any |= is_replaced_in_property(*byte);
    }
    any
}

fn is_replaced_in_page(byte: u8) -> bool
    ensures { result ≡ escapes way.Page byte }
{
    byte == b'&' || byte == b'<' || byte == b'>' || byte == b'"' || byte == b'\''
}

/// Whether one of these bytes is replaced in a page. It doesn't end early either.
fn is_any_replaced_in_page(bytes: &[u8]) -> bool
    ensures { result ≡ list_any (escapes way.Page) bytes.now }
{
    let mut any = false;
    for byte in bytes {
        any |= is_replaced_in_page(*byte);
    }
    any
}

/// The format for which a string is escaped.
#[derive(Clone, Copy, Debug, PartialEq, Eq)]
pub enum Escaping {
    /// The message of a workflow command.
    Message,
    /// A property of a workflow command.
    Property,
    /// Code within Markdown.
    Markdown,
    /// The text of an element of a page or of XML, or of an attribute.
    Page,
    /// The message of a logging command of Azure Pipelines.
    IssueMessage,
    /// A property of a logging command of Azure Pipelines.
    IssueProperty,
}

impl Escaping {
    ghost use Rattle.sarif_shown.specs.Escaped.{escaped_char, escaped, message_char, property_char};
    ghost use Rattle.sarif_shown.specs.Escaped.{markdown_char, is_mark, page_char};
    ghost use Rattle.sarif_shown.specs.Escaped.{issue_message_char, issue_property_char};
    ghost use Rattle.sarif_shown.specs.Internal.EscapedBytes.{escapes};
    ghost use Rattle.std.specs.List.{list_any};

    fn push_message(text: &mut String, c: char) -> Result<(), AllocError>
        ensures { OnOk result (string_bytes text.new ≡ string_bytes text.old ++ message_char c) }
    {
        match c {
            '%' => text.push_str("%25")?,
            _ => text.push(c)?,
        }
        Ok(())
    }

    fn push_property(text: &mut String, c: char) -> Result<(), AllocError>
        ensures { OnOk result (string_bytes text.new ≡ string_bytes text.old ++ property_char c) }
    {
        match c {
            '%' => text.push_str("%25")?,
            ':' => text.push_str("%3A")?,
            ',' => text.push_str("%2C")?,
            _ => text.push(c)?,
        }
        Ok(())
    }

    fn is_mark(c: char) -> bool
        ensures { result ≡ is_mark c }
    {
        matches!(c, '!'..='+' | '.' | ':'..='@' | '['..='`' | '{'..='~')
    }

    fn push_markdown(alloc: Global, text: &mut String, c: char) -> Result<(), AllocError>
        ensures { OnOk result (string_bytes text.new ≡ string_bytes text.old ++ markdown_char c) }
    {
        if Escaping::is_mark(c) {
            let number = c as u32;
            let written = format!(in alloc; "&#{number};")?;
            text.push_str(written.as_str())?;
        } else {
            text.push(c)?;
        }
        Ok(())
    }

    fn push_page(text: &mut String, c: char) -> Result<(), AllocError>
        ensures { OnOk result (string_bytes text.new ≡ string_bytes text.old ++ page_char c) }
    {
        match c {
            '&' => text.push_str("&amp;")?,
            '<' => text.push_str("&lt;")?,
            '>' => text.push_str("&gt;")?,
            '"' => text.push_str("&quot;")?,
            '\'' => text.push_str("&#39;")?,
            _ => text.push(c)?,
        }
        Ok(())
    }

    fn push_issue_message(text: &mut String, c: char) -> Result<(), AllocError>
        ensures { OnOk result
            (string_bytes text.new ≡ string_bytes text.old ++ issue_message_char c) }
    {
        match c {
            '%' => text.push_str("%AZP25")?,
            _ => text.push(c)?,
        }
        Ok(())
    }

    fn push_issue_property(text: &mut String, c: char) -> Result<(), AllocError>
        ensures { OnOk result
            (string_bytes text.new ≡ string_bytes text.old ++ issue_property_char c) }
    {
        match c {
            '%' => text.push_str("%AZP25")?,
            ';' => text.push_str("%3B")?,
            ']' => text.push_str("%5D")?,
            _ => text.push(c)?,
        }
        Ok(())
    }

    fn push_char(self, alloc: Global, text: &mut String, c: char) -> Result<(), AllocError>
        ensures { OnOk result
            (string_bytes text.new ≡ string_bytes text.old ++ escaped_char self c) }
    {
        match self {
            Escaping::Message => Escaping::push_message(text, c)?,
            Escaping::Property => Escaping::push_property(text, c)?,
            Escaping::Markdown => Escaping::push_markdown(alloc, text, c)?,
            Escaping::Page => Escaping::push_page(text, c)?,
            Escaping::IssueMessage => Escaping::push_issue_message(text, c)?,
            Escaping::IssueProperty => Escaping::push_issue_property(text, c)?,
        }
        Ok(())
    }

    /// Whether a byte is a character that is written in another way.
    fn escapes(self, byte: u8) -> bool
        ensures { result ≡ escapes self byte }
    {
        match self {
            Escaping::Message => byte == b'%',
            Escaping::Property => matches!(byte, b'%' | b':' | b','),
            Escaping::Markdown => Escaping::is_mark(byte as char),
            Escaping::Page => matches!(byte, b'&' | b'<' | b'>' | b'"' | b'\''),
            Escaping::IssueMessage => byte == b'%',
            Escaping::IssueProperty => matches!(byte, b'%' | b';' | b']'),
        }
    }

    /// Whether one of these bytes is replaced.
    fn replaces_one(self, bytes: &[u8]) -> bool
        ensures { result ≡ list_any (escapes self) bytes.now }
    {
        for byte in bytes {
            if self.escapes(*byte) {
                return true;
            }
        }
        false
    }

    /// Whether one of these bytes is replaced.
    fn replaces_any(self, bytes: &[u8]) -> bool
        ensures { result ≡ list_any (escapes self) bytes.now }
    {
        match self {
            Escaping::Message => has_percent(bytes),
            Escaping::Property => is_any_replaced_in_property(bytes),
            Escaping::Page => is_any_replaced_in_page(bytes),
            _ => self.replaces_one(bytes),
        }
    }

    /// Adds the escaped string. Text between two replaced characters is added at once.
    fn push_replaced(self, alloc: Global, text: &mut String, plain: &str) -> Result<(), AllocError>
        ensures { OnOk result
            (string_bytes text.new ≡ string_bytes text.old ++ escaped self plain.now) }
    {
        let bytes = plain.as_bytes();
        let mut added = 0;
        for i in 0..bytes.len() {
            let byte = bytes[i];
            if self.escapes(byte) {
                text.push_str(&plain[added..i])?;
                self.push_char(alloc, text, byte as char)?;
                added = i + 1;
            }
        }
        text.push_str(&plain[added..])?;
        Ok(())
    }
    /// Adds the escaped string. Returns `AllocError` if memory runs out.
    #[tactic(auto, using(crate::proofs::EscapedMore::none_replaced))]
    pub fn push_str(self, alloc: Global, text: &mut String, plain: &str) -> Result<(), AllocError>
        ensures { OnOk result
            (string_bytes text.new ≡ string_bytes text.old ++ escaped self plain.now) }
    {
        if self.replaces_any(plain.as_bytes()) {
            return self.push_replaced(alloc, text, plain);
        }
        text.push_str(plain)?;
        Ok(())
    }
}
