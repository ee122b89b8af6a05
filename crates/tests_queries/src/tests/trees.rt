//! Random queries over random lists and lives, beside a look at each document and each second.
ghost use Rattle.std.specs.Prelude.{◌≡◌, length};
ghost use Rattle.query_lang.specs.Meaning.{words_of};

use super::given::{Numbers, expect_same_in, read};
use base_types::{DocId, Posting, Span, Time};
use lists_postings::Life;
use query_eval::{Part, Wanted, answer_from, answer_over, docs_met};
use query_lang::Query;
use std::alloc::Global;
use std::process::Abort;
use std::string::String;

/// The documents are 0, 1 and 2, and the seconds those below this one.
const DOCS: u32 = 3;

const END: u64 = 12;

/// A part of a query, over parts before it.
#[derive(Clone, Copy, Debug)]
enum Node {
    Word(u32),
    Not(usize),
    And(usize, usize),
    Or(usize, usize),
}

/// What a part of a query says of a document: whether it matches, and which words stand in it under
/// an even and under an odd number of `not`, as sums of powers of two.
#[derive(Clone, Copy, Debug)]
struct Said {
    matches: bool,
    even: u32,
    odd: u32,
}

impl Numbers {
    /// A span that begins before the end and lasts for at most 8 seconds.
    fn span(&mut self) -> Option<Span> {
        let from = u64::from(self.below(12));
        let length = u64::from(self.below(8));
        Span::new(from, from.saturating_add(length).saturating_add(1))
    }

    /// A part over some of so many parts before it.
    fn node(&mut self, before: u32) -> Node {
        let kind = if before == 0 { 0 } else { self.below(5) };
        let left = self.below(before) as usize;
        let right = self.below(before) as usize;
        match kind {
            0 => Node::Word(self.below(3)),
            1 => Node::Not(left),
            2 => Node::Or(left, right),
            _ => Node::And(left, right),
        }
    }
}

fn name(word: u32) -> &'static str {
    match word {
        0 => "red",
        1 => "blue",
        _ => "green",
    }
}

/// A query of at most seven parts; the last is the whole.
fn random_query(rt: &impl Abort, alloc: Global, numbers: &mut Numbers) -> Vec<Node> {
    let mut nodes = Vec::new(alloc);
    for before in 0..numbers.below(7).saturating_add(1) {
        nodes.push(numbers.node(before)).expect(rt, "memory");
    }
    nodes
}

fn part_of(texts: &[String], place: usize) -> &str {
    match texts.get(place) {
        Some(text) => text.as_str(),
        None => "",
    }
}

/// Two texts in parentheses, with this between them.
fn joined(rt: &impl Abort, alloc: Global, left: &str, between: &str, right: &str) -> String {
    format!(in alloc; "({left}{between}{right})").expect(rt, "memory")
}

/// A part as a text, by the texts of the parts before it.
fn node_text(rt: &impl Abort, alloc: Global, texts: &[String], node: Node) -> String {
    match node {
        Node::Word(word) => String::from_str(alloc, name(word)).expect(rt, "memory"),
        Node::Not(a) => format!(in alloc; "not {}", part_of(texts, a)).expect(rt, "memory"),
        Node::And(a, b) => {
            let between = if a < b { " " } else { " and " };
            joined(rt, alloc, part_of(texts, a), between, part_of(texts, b))
        }
        Node::Or(a, b) => joined(rt, alloc, part_of(texts, a), " or ", part_of(texts, b)),
    }
}

/// The query as a text, with parentheses around whatever joins.
fn text_of(rt: &impl Abort, alloc: Global, nodes: &[Node]) -> String {
    let mut texts = Vec::new(alloc);
    for node in nodes {
        let text = node_text(rt, alloc, &texts, *node);
        texts.push(text).expect(rt, "memory");
    }
    texts.pop().expect(rt, "a part")
}

fn said_of(all: &[Said], place: usize) -> Said {
    match all.get(place) {
        Some(said) => *said,
        None => Said {
            matches: false,
            even: 0,
            odd: 0,
        },
    }
}

/// What is said by both of two parts, where these match.
fn both(matches: bool, a: Said, b: Said) -> Said {
    Said {
        matches,
        even: a.even | b.even,
        odd: a.odd | b.odd,
    }
}

/// What a part says of a document that has each word so often, by what the parts before it say.
fn node_says(all: &[Said], node: Node, often: [u64; 3]) -> Said {
    match node {
        Node::Word(word) => Said {
            matches: count(often, word) > 0,
            even: bit(word),
            odd: 0,
        },
        Node::Not(a) => {
            let a = said_of(all, a);
            Said {
                matches: !a.matches,
                even: a.odd,
                odd: a.even,
            }
        }
        Node::And(a, b) => {
            let (a, b) = (said_of(all, a), said_of(all, b));
            both(a.matches && b.matches, a, b)
        }
        Node::Or(a, b) => {
            let (a, b) = (said_of(all, a), said_of(all, b));
            both(a.matches || b.matches, a, b)
        }
    }
}

/// What the query says of a document that has each word so often.
fn says(rt: &impl Abort, alloc: Global, nodes: &[Node], often: [u64; 3]) -> Said {
    let mut all = Vec::new(alloc);
    for node in nodes {
        let said = node_says(&all, *node, often);
        all.push(said).expect(rt, "memory");
    }
    said_of(&all, nodes.len().saturating_sub(1))
}

fn bit(word: u32) -> u32 {
    match word {
        0 => 1,
        1 => 2,
        _ => 4,
    }
}

fn count(often: [u64; 3], word: u32) -> u64 {
    let [red, blue, green] = often;
    match word {
        0 => red,
        1 => blue,
        _ => green,
    }
}

/// The sum of how often those words occur that stand under an even number of `not`.
fn summed(said: Said, often: [u64; 3]) -> u64 {
    let mut score: u64 = 0;
    for word in 0..3 {
        if said.even & bit(word) != 0 {
            score = score.saturating_add(count(often, word));
        }
    }
    score
}

/// A document, a start, an end and a score.
type SpanRow = (u32, u64, u64, u64);

/// Lists and lives.
#[derive(Drop)]
struct World {
    lives: Vec<Life>,
    red: Vec<Posting>,
    blue: Vec<Posting>,
    green: Vec<Posting>,
}

impl World {
    fn new(alloc: Global) -> World {
        World {
            lives: Vec::new(alloc),
            red: Vec::new(alloc),
            blue: Vec::new(alloc),
            green: Vec::new(alloc),
        }
    }

    /// One with random lives and postings, which may overlap.
    fn random(rt: &impl Abort, alloc: Global, numbers: &mut Numbers) -> World {
        let mut world = World::new(alloc);
        for _ in 0..numbers.below(7) {
            let doc = DocId(numbers.below(DOCS));
            if let Some(span) = numbers.span() {
                world.lives.push(Life { doc, span }).expect(rt, "memory");
            }
        }
        for _ in 0..numbers.below(16) {
            let doc = DocId(numbers.below(DOCS));
            let tf = numbers.below(3).saturating_add(1);
            let word = numbers.below(3);
            if let Some(span) = numbers.span() {
                let list = world.list_mut(word);
                list.push(Posting { doc, span, tf }).expect(rt, "memory");
            }
        }
        world
    }

    fn list_mut(&mut self, word: u32) -> &mut Vec<Posting> {
        match word {
            0 => &mut self.red,
            1 => &mut self.blue,
            _ => &mut self.green,
        }
    }

    fn list(&self, word: &str) -> &[Posting] {
        match word {
            "red" => &self.red,
            "blue" => &self.blue,
            _ => &self.green,
        }
    }

    fn is_alive(&self, doc: u32, second: u64) -> bool {
        for l in self.lives.as_slice() {
            if l.doc.0 == doc && l.span.from <= second && second < l.span.to {
                return true;
            }
        }
        false
    }

    /// How often the first posting of the document that holds the second says.
    fn often(&self, word: &str, doc: u32, second: u64) -> u64 {
        for p in self.list(word) {
            if p.doc.0 == doc && p.span.from <= second && second < p.span.to {
                return u64::from(p.tf);
            }
        }
        0
    }

    /// The score of a document at a second, where it is alive and matches.
    fn score(
        &self,
        rt: &impl Abort,
        alloc: Global,
        nodes: &[Node],
        doc: u32,
        second: u64,
    ) -> Option<u64> {
        let often = [
            self.often("red", doc, second),
            self.often("blue", doc, second),
            self.often("green", doc, second),
        ];
        let said = says(rt, alloc, nodes, often);
        if said.matches && self.is_alive(doc, second) {
            Some(summed(said, often))
        } else {
            None
        }
    }

    /// The documents that are alive at a second, in order.
    fn alive(&self, rt: &impl Abort, alloc: Global, second: u64) -> Vec<DocId> {
        let mut alive = Vec::new(alloc);
        for doc in 0..DOCS {
            if self.is_alive(doc, second) {
                alive.push(DocId(doc)).expect(rt, "memory");
            }
        }
        alive
    }

    /// The parts of the lists of a query's words.
    fn parts(&self, rt: &impl Abort, alloc: Global, query: &Query) -> Vec<Part>
        ensures { length result.items ≡ length (words_of query.now) }
    {
        let mut parts = Vec::new(alloc);
        for word in query.words() {
            let list = Vec::from_slice(alloc, self.list(word.as_str())).expect(rt, "memory");
            parts.push(Part { list, read: 3 }).expect(rt, "memory");
        }
        assert!(rt; parts.len() == query.words().len());
        parts
    }

    /// The rows at a second, by a look at each document.
    fn looked_at(
        &self,
        rt: &impl Abort,
        alloc: Global,
        nodes: &[Node],
        second: u64,
    ) -> Vec<(u32, u64)> {
        let mut rows = Vec::new(alloc);
        for below in 0..10u64 {
            let wanted = 9u64.saturating_sub(below);
            for doc in 0..DOCS {
                if self.score(rt, alloc, nodes, doc, second) == Some(wanted) {
                    rows.push((doc, wanted)).expect(rt, "memory");
                }
            }
        }
        rows
    }

    /// Adds the rows of a document over a window, by a look at each second.
    fn look_at_each(
        &self,
        rt: &impl Abort,
        alloc: Global,
        nodes: &[Node],
        doc: u32,
        span: Span,
        rows: &mut Vec<SpanRow>,
    ) {
        let mut open: Option<(u64, u64)> = None;
        for second in span.from..span.to {
            let now = self.score(rt, alloc, nodes, doc, second);
            if let Some((since, held)) = open {
                if now != Some(held) {
                    rows.push((doc, since, second, held)).expect(rt, "memory");
                    open = None;
                }
            }
            if let (Some(held), None) = (now, open) {
                open = Some((second, held));
            }
        }
        if let Some((since, held)) = open {
            rows.push((doc, since, span.to, held)).expect(rt, "memory");
        }
    }

    /// The rows over a window, by a look at each second of each document.
    fn looked_over(
        &self,
        rt: &impl Abort,
        alloc: Global,
        nodes: &[Node],
        span: Span,
    ) -> Vec<SpanRow> {
        let mut rows = Vec::new(alloc);
        for doc in 0..DOCS {
            self.look_at_each(rt, alloc, nodes, doc, span, &mut rows);
        }
        rows
    }
}

/// A query in parts and as a text, and the world that it is asked of.
#[derive(Drop)]
struct Case {
    nodes: Vec<Node>,
    world: World,
    text: String,
}

impl Case {
    fn random(rt: &impl Abort, alloc: Global, numbers: &mut Numbers) -> Case {
        let nodes = random_query(rt, alloc, numbers);
        let world = World::random(rt, alloc, numbers);
        let text = text_of(rt, alloc, &nodes);
        Case { nodes, world, text }
    }
}

/// The documents and scores that answer a query at a second.
fn answered_at(
    rt: &impl Abort,
    alloc: Global,
    query: &Query,
    parts: &[Part],
    world: &World,
    second: u64,
) -> Vec<(u32, u64)>
    requires { length parts.now ≡ length (words_of query.now) }
{
    let t = Time::new(second).expect(rt, "a time");
    let alive = world.alive(rt, alloc, second);
    let answer = answer_from(alloc, query, t, parts, &alive, Wanted::All).expect(rt, "memory");
    let mut rows = Vec::new(alloc);
    for row in &answer.rows {
        rows.push((row.doc.0, row.score)).expect(rt, "memory");
    }
    rows
}

/// At each second the answer is that of a look at each document.
fn expect_at_seconds(rt: &impl Abort, alloc: Global, case: &Case) {
    let text = case.text.as_str();
    let query = read(rt, alloc, text);
    let parts = case.world.parts(rt, alloc, &query);
    for second in 0..END {
        let rows = answered_at(rt, alloc, &query, &parts, &case.world, second);
        let wanted = case.world.looked_at(rt, alloc, &case.nodes, second);
        expect_same_in(rt, (text, second), rows.as_slice(), wanted.as_slice());
    }
}

#[test]
fn answers_are_those_of_a_look_at_each_document(rt: HostRuntime) {
    let alloc = rt.alloc();
    let mut numbers = Numbers { state: 2007 };
    for _ in 0..300 {
        expect_at_seconds(&rt, alloc, &Case::random(&rt, alloc, &mut numbers));
    }
}

/// The documents, spans and scores that answer a query over a window.
fn answered_over(
    rt: &impl Abort,
    alloc: Global,
    query: &Query,
    parts: &[Part],
    lives: &[Life],
    span: Span,
) -> Vec<SpanRow>
    requires { length parts.now ≡ length (words_of query.now) }
{
    let answer = answer_over(alloc, query, span, parts, lives).expect(rt, "memory");
    let mut rows = Vec::new(alloc);
    for row in &answer.rows {
        rows.push((row.doc.0, row.span.from, row.span.to, row.score))
            .expect(rt, "memory");
    }
    rows
}

/// The lives of the documents with a posting in a window.
fn lives_met(
    rt: &impl Abort,
    alloc: Global,
    parts: &[Part],
    world: &World,
    span: Span,
) -> Vec<Life> {
    let docs = docs_met(alloc, parts, span).expect(rt, "memory");
    let mut lives = Vec::new(alloc);
    for life in &world.lives {
        if docs.contains(&life.doc) {
            lives.push(*life).expect(rt, "memory");
        }
    }
    lives
}

/// In a window the answer by the lives of all documents is that of a look at each second.
fn expect_in_window(
    rt: &impl Abort,
    alloc: Global,
    case: &Case,
    query: &Query,
    parts: &[Part],
    span: Span,
)
    requires { length parts.now ≡ length (words_of query.now) }
{
    let row = (case.text.as_str(), span.from, span.to);
    let rows = answered_over(rt, alloc, query, parts, &case.world.lives, span);
    let wanted = case.world.looked_over(rt, alloc, &case.nodes, span);
    expect_same_in(rt, row, rows.as_slice(), wanted.as_slice());
}

/// The same by the lives of the documents with a posting there.
fn expect_by_those_met(
    rt: &impl Abort,
    alloc: Global,
    case: &Case,
    query: &Query,
    parts: &[Part],
    span: Span,
)
    requires { length parts.now ≡ length (words_of query.now) }
{
    let row = (case.text.as_str(), span.from, span.to);
    let lives = lives_met(rt, alloc, parts, &case.world, span);
    let rows = answered_over(rt, alloc, query, parts, &lives, span);
    let wanted = case.world.looked_over(rt, alloc, &case.nodes, span);
    expect_same_in(rt, row, rows.as_slice(), wanted.as_slice());
}

/// In each window the answer is that of a look at each second, also by the lives of the documents with a
/// posting there, where the query doesn't match without its words.
fn expect_in_windows(rt: &impl Abort, alloc: Global, case: &Case) {
    let query = read(rt, alloc, case.text.as_str());
    let parts = case.world.parts(rt, alloc, &query);
    for from in 0..END {
        for to in from.saturating_add(1)..END {
            let span = Span::new(from, to).expect(rt, "a window");
            expect_in_window(rt, alloc, case, &query, &parts, span);
            if !query.matches_without_words() {
                expect_by_those_met(rt, alloc, case, &query, &parts, span);
            }
        }
    }
}

#[test]
fn windows_are_those_of_a_look_at_each_second(rt: HostRuntime) {
    let alloc = rt.alloc();
    let mut numbers = Numbers { state: 1997 };
    for _ in 0..300 {
        expect_in_windows(&rt, alloc, &Case::random(&rt, alloc, &mut numbers));
    }
}
