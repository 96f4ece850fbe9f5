//! Laws of addresses. Each law is the contract of a function that does nothing. A log may be hostile, so the laws cover
//! any paths.
ghost use Rattle.std.specs.Prelude.{◌≡◌, ◌<◌, ◌^◌, ◌++◌, ◌==◌, ℕ, IfSome, List, Option, codes, false, nat_eq, true, unwrap_or};
ghost use Rattle.std.specs.List.{All, before_first, list_all, list_any, starts_with};
ghost use Rattle.percent_encoding.specs.Percent.{percent_decode};
ghost use Rattle.sarif_links.specs.Address.{is_address, is_address_sign};
ghost use Rattle.sarif_links.specs.Template.{encoded, is_linkable, is_relative, is_template, place_address, segments_of};

/// An address has only the characters of an address, and begins with `http`. So no quote, bracket, bar, backquote,
/// dollar, backslash, space or character beyond ASCII is in it.
pub fn addresses_have_their_characters()
    ensures signs { (text : List ℕ) → is_address text ≡ true
        → list_all is_address_sign text ≡ true }
    ensures scheme { (text : List ℕ) → is_address text ≡ true
        → starts_with nat_eq text (codes "http") ≡ true }
{}

/// The address of a place has only the characters of an address, and begins with its template up to the first
/// placeholder, and so with a scheme, a host and a slash that no log chooses.
pub fn places_link_to_addresses()
    ensures signs { (template path : List ℕ) (line : Option ℕ) → is_template template ≡ true
        → unwrap_or line 1 < 2 ^ 32 → IfSome (place_address template path line)
        (λ address. list_all is_address_sign address ≡ true) }
    ensures scheme { (template path : List ℕ) (line : Option ℕ) → is_template template ≡ true
        → IfSome (place_address template path line)
        (λ address. starts_with nat_eq address (codes "http") ≡ true) }
    ensures start { (template path : List ℕ) (line : Option ℕ) →
        IfSome (place_address template path line) (λ address.
        starts_with nat_eq address (before_first (λ byte. byte == 123) template) ≡ true) }
{}

/// All addresses of a template and a line are the same except for what they have for `{path}`. The path is read back from
/// that, and no segment of it is empty, `.` or `..`. So two places have two addresses, and no log leaves the
/// template's folder.
pub fn paths_are_read_back()
    ensures apart { (template : List ℕ) (line : Option ℕ) → is_template template ≡ true
        → (before after : List ℕ) × ((path : List ℕ) → IfSome (place_address template path line)
        (λ address. address ≡ before ++ (encoded path ++ after))) }
    ensures read { (path : List ℕ) → All (λ b. b < 256) path
        → percent_decode (encoded path) ≡ path }
    ensures segments { (path : List ℕ) → is_linkable path ≡ true
        → list_any is_relative (segments_of (encoded path)) ≡ false }
{}
