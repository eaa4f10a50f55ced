//! Laws of the HTML of pages: no text of a source becomes markup. Each function does nothing: its
//! contract is the law.
#![tactic(auto)]

ghost use Rattle.std.specs.Prelude.{◌≡◌, ℕ, List, Option, IfSome, codes};
ghost use Rattle.std.specs.List.{All, AllByRecursion};
ghost use Rattle.std.specs.Str.{IsUtf8};
ghost use Rattle.build_spec.specs.Built.{Page, Done};
ghost use Rattle.dita_doc.specs.HtmlEscapes.{escaped, escaped_value};
ghost use Rattle.dita_doc.specs.ReadTree.{IsReadTree};
ghost use Rattle.dita_doc.specs.declared.content.Anchor.{Anchor};
ghost use Rattle.dita_doc.specs.declared.content.Mark.{Mark};
ghost use Rattle.dita_doc.specs.declared.content.PageLink.{PageLink};
ghost use Rattle.dita_doc.specs.declared.fact.Html.{Html};
ghost use Rattle.dita_doc.specs.declared.fault.Fault.{Fault};
ghost use Rattle.dita_doc.specs.declared.plan.Plan.{Plan};
ghost use Rattle.html_laws.specs.Markup as markup_spec;
ghost use Rattle.html_laws.specs.Tags as tags_spec;
ghost use Rattle.html_laws.specs.Utf8 as utf8_spec;
ghost use Rattle.map_spec.specs.Written.{Written};
ghost use Rattle.html_spec.specs.Blocks as blocks_spec;
ghost use Rattle.html_spec.specs.Contents as contents_spec;
ghost use Rattle.html_spec.specs.PageHtml as page_html_spec;
ghost use Rattle.part_spec.specs.Parts as parts_spec;
ghost use Rattle.reader_spec.specs.World.{World};

/// Whatever the sources are, the HTML of content is markup, and a page is the doctype and markup.
pub fn pages_are_markup()
    ensures body { (anchors : List Anchor) (marks : List Mark) (nodes : Written) →
        markup_spec.IsMarkup (blocks_spec.body_html anchors marks nodes).bytes }
    // A page around a body that is markup, be it too long or not.
    ensures page { (limit : ℕ) (name : List ℕ) (line : ℕ) (title : List ℕ) (body : Html)
        (related : List PageLink) → markup_spec.IsMarkup body.bytes →
        markup_spec.IsPage (page_html_spec.page_within limit name line title body related).bytes }
    ensures contents { (world : World) (plan : Plan) →
        markup_spec.IsPage (contents_spec.contents world plan) }
    // So is each page of a build, the contents page too.
    ensures built { (world : World) (map : List ℕ) (val : Option (List ℕ)) (pages : List Page)
        (report : List Fault) → parts_spec.clean_build world map val ≡ Done pages report →
        All (λ page. markup_spec.IsPage page.1) pages }
    // And so is the page of its terms.
    ensures terms { (world : World) (map : List ℕ) (val : Option (List ℕ)) →
        IfSome (parts_spec.clean_terms world map val) (λ html. markup_spec.IsPage html.bytes) }
{}

/// Bytes are the bytes of one list of nodes at most, so what is markup has one reading.
pub fn markup_is_read_once()
    ensures { (nodes others : markup_spec.Nodes) → markup_spec.AreNodes nodes →
        markup_spec.AreNodes others →
        markup_spec.nodes_bytes nodes ≡ markup_spec.nodes_bytes others → nodes ≡ others }
{}

/// Not all bytes are markup: no sign that should be escaped, no tag without its other half, and no
/// element of another name than those of a page.
pub fn some_bytes_are_no_markup()
    ensures less { markup_spec.IsMarkup (codes "<") → ⊥ }
    ensures ampersand { markup_spec.IsMarkup (codes "&") → ⊥ }
    ensures started { markup_spec.IsMarkup (codes "<p>") → ⊥ }
    ensures ended { markup_spec.IsMarkup (codes "</p>") → ⊥ }
    ensures script { markup_spec.IsMarkup (codes "<script></script>") → ⊥ }
{}

/// The texts of content change no tag of its HTML: with any other texts in their places its markup
/// has the same tags, apart from the values of attributes.
pub fn texts_change_no_tag()
    ensures { (texts : ℕ → List ℕ) (anchors : List Anchor) (marks : List Mark)
        (nodes : Written) →
        tags_spec.HaveSameTags (blocks_spec.body_html anchors marks nodes).bytes
        (blocks_spec.body_html anchors marks (tags_spec.with_texts texts 0 nodes)).bytes }
{}

/// A text and a value of an attribute are shown by pieces of which they are read again, every byte.
pub fn texts_are_shown()
    ensures text { (text : List ℕ) →
        markup_spec.IsShown markup_spec.is_text_piece (escaped text) text }
    ensures value { (value : List ℕ) →
        markup_spec.IsShown markup_spec.is_value_piece (escaped_value value) value }
{}

/// What is made of texts in UTF-8 is UTF-8.
pub fn pages_are_utf8()
    ensures body { (anchors : List Anchor) (marks : List Mark) (nodes : Written) →
        AllByRecursion utf8_spec.IsUtf8Anchor anchors → AllByRecursion utf8_spec.IsUtf8Mark marks →
        utf8_spec.IsUtf8Content nodes →
        IsUtf8 (blocks_spec.body_html anchors marks nodes).bytes }
    ensures page { (limit : ℕ) (name : List ℕ) (line : ℕ) (title : List ℕ) (body : Html)
        (related : List PageLink) → IsUtf8 title → IsUtf8 body.bytes →
        AllByRecursion utf8_spec.IsUtf8Link related →
        IsUtf8 (page_html_spec.page_within limit name line title body related).bytes }
    ensures contents { (world : World) (plan : Plan) → utf8_spec.IsUtf8World world →
        utf8_spec.IsUtf8Plan plan → IsUtf8 (contents_spec.contents world plan) }
    // So is each page of a build, if the map's name and the documents are UTF-8.
    ensures built { (world : World) (map : List ℕ) (val : Option (List ℕ)) (pages : List Page)
        (report : List Fault) → utf8_spec.IsUtf8World world → IsUtf8 map →
        parts_spec.clean_build world map val ≡ Done pages report →
        All (λ page. IsUtf8 page.1) pages }
    // And so is the page of its terms.
    ensures terms { (world : World) (map : List ℕ) (val : Option (List ℕ)) →
        utf8_spec.IsUtf8World world → IsUtf8 map →
        IfSome (parts_spec.clean_terms world map val) (λ html. IsUtf8 html.bytes) }
    // The documents of a world are UTF-8 if they were read of PYX.
    ensures read { (world : World) → ((name : List ℕ) → IfSome (world name) IsReadTree) →
        utf8_spec.IsUtf8World world }
{}
