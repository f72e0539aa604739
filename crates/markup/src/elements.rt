ghost use Rattle.std.specs.Prelude.{◌≡◌};
ghost use Rattle.markup.specs.Elements.{name_of, start_tag, end_tag, is_same, page_word, page_end};

/// An element that a text may open: a, which has a URL, or one of those that have no attribute.
#[derive(Clone, Copy)]
pub enum Element {
    A,
    B,
    I,
    Em,
    Strong,
    Tt,
    Code,
    Pre,
    P,
    Blockquote,
    Ul,
    Ol,
    Li,
}

impl Element {
    /// Its name in HTML, in lower case.
    pub fn name(self) -> &'static [u8]
        ensures { result.now ≡ name_of self }
    {
        match self {
            Element::A => b"a",
            Element::B => b"b",
            Element::I => b"i",
            Element::Em => b"em",
            Element::Strong => b"strong",
            Element::Tt => b"tt",
            Element::Code => b"code",
            Element::Pre => b"pre",
            Element::P => b"p",
            Element::Blockquote => b"blockquote",
            Element::Ul => b"ul",
            Element::Ol => b"ol",
            Element::Li => b"li",
        }
    }

    /// Its start tag, without an attribute.
    #[tactic(auto, unfolding(crate::specs::Elements::start_tag))]
    pub fn start_tag(self) -> &'static [u8]
        ensures { result.now ≡ start_tag self }
    {
        match self {
            Element::A => b"<a>",
            Element::B => b"<b>",
            Element::I => b"<i>",
            Element::Em => b"<em>",
            Element::Strong => b"<strong>",
            Element::Tt => b"<tt>",
            Element::Code => b"<code>",
            Element::Pre => b"<pre>",
            Element::P => b"<p>",
            Element::Blockquote => b"<blockquote>",
            Element::Ul => b"<ul>",
            Element::Ol => b"<ol>",
            Element::Li => b"<li>",
        }
    }

    /// Its end tag.
    #[tactic(auto, unfolding(crate::specs::Elements::end_tag))]
    pub fn end_tag(self) -> &'static [u8]
        ensures { result.now ≡ end_tag self }
    {
        match self {
            Element::A => b"</a>",
            Element::B => b"</b>",
            Element::I => b"</i>",
            Element::Em => b"</em>",
            Element::Strong => b"</strong>",
            Element::Tt => b"</tt>",
            Element::Code => b"</code>",
            Element::Pre => b"</pre>",
            Element::P => b"</p>",
            Element::Blockquote => b"</blockquote>",
            Element::Ul => b"</ul>",
            Element::Ol => b"</ol>",
            Element::Li => b"</li>",
        }
    }

    /// Whether both are the same element.
    #[tactic(auto, unfolding(crate::specs::Elements::is_same))]
    pub fn is_same(self, other: Element) -> bool
        ensures { result ≡ is_same self other }
    {
        self as u8 == other as u8
    }
}

/// A kind of page that a text may link to by name.
#[derive(Clone, Copy)]
pub enum Page {
    Person,
    Project,
}

impl Page {
    /// The word for it in texts and in paths.
    pub fn word(self) -> &'static [u8]
        ensures { result.now ≡ page_word self }
    {
        match self {
            Page::Person => b"person",
            Page::Project => b"project",
        }
    }

    /// The tag behind a name in a text.
    #[tactic(auto, unfolding(crate::specs::Elements::page_end))]
    pub fn end(self) -> &'static [u8]
        ensures { result.now ≡ page_end self }
    {
        match self {
            Page::Person => b"</person>",
            Page::Project => b"</project>",
        }
    }
}
