// What somebody who writes other languages may have meant. docs/refusals.md has the same in a table.

ghost use Rattle.std.specs.Prelude.{◌≡◌};
ghost use Rattle.raysim_explain.specs.Hints.{before_step, begun_hint, brace_hint, brace_step, bracket_hint, bracket_kind, bracket_step, byte_at};
ghost use Rattle.raysim_explain.specs.Hints.{byte_before, byte_behind, colon_hint, has_step, has_word, hint_of, hint_words, inner_hint, inside_hint};
ghost use Rattle.raysim_explain.specs.Hints.{is_behind, is_blank, is_else_if, is_in_word, is_letter, is_name_wanted, is_outside, is_reserved, is_retries};
ghost use Rattle.raysim_explain.specs.Hints.{is_slash_comment, is_statement_begun, is_statement_word, is_sum_sign, is_tuple, is_type_place, is_type_wanted};
ghost use Rattle.raysim_explain.specs.Hints.{is_type_word, is_value_end, is_value_wanted, is_variable_named, is_within, lacks_semicolon, mark_hint};
ghost use Rattle.raysim_explain.specs.Hints.{mark_place_hint, name_hint, open_step, place_hint, retry_step, run_hint, set_hint, sign_hint, statement_hint};
ghost use Rattle.raysim_explain.specs.Hints.{token_hint, word_hint, word_step};

use std::fmt;

/// What a script that is refused may have meant to say. Its text is how that is said.
#[derive(Clone, Copy, Debug, PartialEq, Eq, Drop)]
pub enum Hint {
    /// `>`
    Greater,
    /// `>=`
    AtLeast,
    /// `&&` or `and`
    And,
    /// `&` alone
    Ampersand,
    /// `||`, `|` or `or`
    Or,
    /// `!` or `not`
    Not,
    /// A text in quotes.
    Text,
    /// A number with a point.
    Fraction,
    /// A call behind a point, as `l.push(3)`.
    Method,
    /// A name with a capital letter.
    CapitalLetter,
    /// A comment that begins with `//` or `/*`.
    SlashComment,
    /// A `while`.
    While,
    /// An `else if` or an `elif`.
    ElseIf,
    /// `x = 2;`, without `set`.
    Assignment,
    /// A statement that begins with none of the words for that, as `x += 1;`.
    Statement,
    /// A call alone as a statement.
    LoneCall,
    /// A `push` alone as a statement.
    LonePush,
    /// A value alone as a statement, as `remote f();` or `get r;`.
    LoneValue,
    /// `break` or `continue`
    Break,
    /// A new item of a list, as `l[0] = 3;`.
    Item,
    /// `set x += 1;` or `set x++;`
    Sum,
    /// `let mut x = 1;`
    Mutable,
    /// A tuple, as `(1, 2)`.
    Tuple,
    /// A `for` inside a list.
    ListLoop,
    /// `[]` as a value.
    EmptyList,
    /// `[]` where a type stands.
    ListType,
    /// An index without a number, `l[]`.
    Index,
    /// A comma behind the last item.
    LastComma,
    /// A colon before a block.
    Colon,
    /// A variable's type, as `let x: int = 1;`.
    VariableType,
    /// A name where a type stands, as `i64`.
    TypeName,
    /// Several variables behind one `set`, or a bracket there.
    SetOne,
    /// A function without a result's type, or with it behind a colon.
    NoResult,
    /// A loop without bounds, as `for x in l { }`.
    Bounds,
    /// `..=` between the bounds of a loop.
    Inclusive,
    /// Anything but one number in the brackets behind `remote`.
    Retries,
    /// `true` or `false`
    Truth,
    /// A `;` that is missing, or a block without braces.
    Semicolon,
    /// A statement's end where a round or square bracket is open.
    Unclosed,
    /// An argument with its parameter's name, `f(x: 1)`.
    NamedArgument,
    /// A word of the language where a name stands, as `let set = 3;`.
    Reserved,
    /// A function without `fn`, or a statement in none.
    Function,
    /// A byte order mark, at the text's start.
    ByteOrderMark,
    /// The least number, written with its digits.
    LeastNumber,
}

/// The byte at a place, and 0 where the text has none there.
fn byte_at(text: &[u8], place: usize) -> u8
    ensures { result ≡ byte_at text.now place }
{
    match text.get(place) {
        Some(byte) => *byte,
        None => 0,
    }
}

/// Whether it is a space, a tab, a carriage return or a line feed.
fn is_blank(byte: u8) -> bool
    ensures { result ≡ is_blank byte }
{
    byte == b' ' || byte == b'\t' || byte == b'\r' || byte == b'\n'
}

/// The last byte that is no blank behind one byte more, and 256 more in a comment, whose bytes are none of them.
fn before_step(last: usize, byte: u8) -> usize
    ensures { result ≡ before_step last byte }
{
    if last > 255 {
        return if byte == b'\n' { last - 256 } else { last };
    }
    if byte == b'#' {
        return last + 256;
    }
    if is_blank(byte) { last } else { byte as usize }
}

/// The last byte of a text that is no blank and in no comment, and 0 where there is none.
fn byte_before(text: &[u8]) -> u8
    ensures { result ≡ byte_before text.now }
{
    let mut last = 0;
    for byte in text {
        last = before_step(last, *byte);
    }
    if last < 256 { last as u8 } else { 0 }
}

/// The first byte of a text that is no blank, and 0 where there is none.
#[tactic(auto, unfolding(crate::specs::Hints::byte_behind))]
fn byte_behind(text: &[u8]) -> u8
    ensures { result ≡ byte_behind text.now }
{
    let mut rest = text;
    while let [byte, more @ ..] = rest {
        if !is_blank(*byte) {
            return *byte;
        }
        rest = more;
    }
    0
}

/// Whether it is a small letter.
fn is_letter(byte: u8) -> bool
    ensures { result ≡ is_letter byte }
{
    byte > 96 && byte < 123
}

/// Of bytes that begin no token: the first one, and the one right behind it.
fn sign_hint(first: u8, second: u8) -> Option<Hint>
    ensures { result ≡ sign_hint first second }
{
    match first {
        b'>' if second == b'=' => Some(Hint::AtLeast),
        b'>' => Some(Hint::Greater),
        b'&' if second == b'&' => Some(Hint::And),
        b'&' => Some(Hint::Ampersand),
        b'|' => Some(Hint::Or),
        b'!' => Some(Hint::Not),
        b'"' | b'\'' => Some(Hint::Text),
        b'.' if is_letter(second) => Some(Hint::Method),
        b'.' => Some(Hint::Fraction),
        b'A'..=b'Z' => Some(Hint::CapitalLetter),
        _ => None,
    }
}

/// Of bytes that are no token, with the byte right behind the first one.
fn run_hint(token: &[u8], second: u8) -> Option<Hint>
    ensures { result ≡ run_hint token.now second }
{
    if token == b"9223372036854775808".as_slice() {
        return Some(Hint::LeastNumber);
    }
    sign_hint(byte_at(token, 0), second)
}

/// Of a byte above 127, at that place of the text.
fn mark_hint(text: &[u8], place: usize) -> Option<Hint>
    ensures { result ≡ mark_hint text.now place }
{
    if place == 0 && byte_at(text, 0) == 239 && byte_at(text, 1) == 187 && byte_at(text, 2) == 191 {
        return Some(Hint::ByteOrderMark);
    }
    None
}

/// Whether it is a sign of arithmetic, which stands before `=` in other languages.
fn is_sum_sign(byte: u8) -> bool
    ensures { result ≡ is_sum_sign byte }
{
    byte == b'+' || byte == b'-' || byte == b'*' || byte == b'/' || byte == b'%'
}

/// Whether a statement may begin behind that byte.
fn is_statement_begun(before: u8) -> bool
    ensures { result ≡ is_statement_begun before }
{
    before == b'{' || before == b'}' || before == b';'
}

/// Whether a statement begins with that word.
fn is_statement_word(token: &[u8]) -> bool
    ensures { result ≡ is_statement_word token.now }
{
    if token == b"let".as_slice() || token == b"set".as_slice() || token == b"if".as_slice() {
        return true;
    }
    token == b"for".as_slice() || token == b"print".as_slice() || token == b"return".as_slice()
}

/// Whether a value may end with that byte.
fn is_value_end(byte: u8) -> bool
    ensures { result ≡ is_value_end byte }
{
    if byte == b'_' || byte == b')' || byte == b']' {
        return true;
    }
    if byte > 96 && byte < 123 {
        return true;
    }
    byte > 47 && byte < 58
}

/// Whether a semicolon may be missing before a token.
fn lacks_semicolon(token: &[u8], before: u8) -> bool
    ensures { result ≡ lacks_semicolon token.now before }
{
    if token == b"}".as_slice() {
        return true;
    }
    is_statement_word(token) && is_value_end(before)
}

/// Of a name at which a statement was to begin.
fn statement_hint(behind: u8) -> Option<Hint>
    ensures { result ≡ statement_hint behind }
{
    if behind == b'=' {
        return Some(Hint::Assignment);
    }
    if behind == b'(' {
        return Some(Hint::LoneCall);
    }
    if is_sum_sign(behind) {
        return Some(Hint::Statement);
    }
    None
}

/// Whether a word of a script may have that byte in it.
fn is_in_word(byte: u8) -> bool
    ensures { result ≡ is_in_word byte }
{
    is_letter(byte) || (byte > 47 && byte < 58) || byte == b'_'
}

/// How many bytes of a word the last word has behind one byte more: all, too, where blanks or a `[` follow it, 99 in another word, and 98 in a comment.
fn word_step(word: &[u8], count: usize, byte: u8) -> usize
    ensures { result ≡ word_step word.now count byte }
{
    if count == 98 {
        return if byte == b'\n' { 0 } else { 98 };
    }
    if byte == b'#' {
        return 98;
    }
    if is_blank(byte) || byte == b'[' {
        return if count == word.len() { count } else { 0 };
    }
    if !is_in_word(byte) {
        return 0;
    }
    if count < word.len() && byte_at(word, count) == byte {
        count + 1
    } else {
        99
    }
}

/// Whether a text ends with exactly that word, and blanks or a `[` behind it.
fn is_behind(text: &[u8], word: &[u8]) -> bool
    ensures { result ≡ is_behind text.now word.now }
{
    let mut count = 0;
    for byte in text {
        count = word_step(word, count, *byte);
    }
    count == word.len()
}

/// How many bytes of a word stand behind one byte more, as in `word_step`: 100 where the statement has had that word, and 98 in a comment.
fn has_step(word: &[u8], count: usize, byte: u8) -> usize
    ensures { result ≡ has_step word.now count byte }
{
    if count == 98 {
        return if byte == b'\n' { 0 } else { 98 };
    }
    if is_statement_begun(byte) {
        return 0;
    }
    if count == 100 {
        return 100;
    }
    if byte == b'#' {
        return 98;
    }
    if !is_in_word(byte) {
        return if count == word.len() { 100 } else { 0 };
    }
    if count < word.len() && byte_at(word, count) == byte {
        count + 1
    } else {
        99
    }
}

/// As `word_step` for the word `remote`, but 7 behind a `(` that follows it, and behind digits and blanks there.
fn retry_step(count: usize, byte: u8) -> usize
    ensures { result ≡ retry_step count byte }
{
    if count == 6 && byte == b'(' {
        return 7;
    }
    if count == 7 && (is_blank(byte) || (byte > 47 && byte < 58)) {
        return 7;
    }
    word_step(b"remote".as_slice(), count, byte)
}

/// Whether a text ends in the brackets behind a `remote`, with no more than one number in them so far.
fn is_retries(text: &[u8]) -> bool
    ensures { result ≡ is_retries text.now }
{
    let mut count = 0;
    for byte in text {
        count = retry_step(count, *byte);
    }
    count == 7
}

/// Whether a word stands in the statement, or the head of a function, with which a text ends.
fn has_word(text: &[u8], word: &[u8]) -> bool
    ensures { result ≡ has_word text.now word.now }
{
    let mut count = 0;
    for byte in text {
        count = has_step(word, count, *byte);
    }
    count == 100
}

/// How many brackets of a kind are open behind one byte more, and 100 more in a comment, whose brackets are none. None is behind a brace or a `;`.
fn open_step(opens: u8, closes: u8, count: usize, byte: u8) -> usize
    ensures { result ≡ open_step opens closes count byte }
{
    if count > 99 {
        return if byte == b'\n' { count - 100 } else { count };
    }
    if byte == b'#' {
        return count + 100;
    }
    if byte == opens && count < 99 {
        return count + 1;
    }
    if byte == closes && 0 < count {
        return count - 1;
    }
    if is_statement_begun(byte) { 0 } else { count }
}

/// Whether brackets of a kind are open at a text's end.
fn is_within(text: &[u8], opens: u8, closes: u8) -> bool
    ensures { result ≡ is_within text.now opens closes }
{
    let mut count = 0;
    for byte in text {
        count = open_step(opens, closes, count, *byte);
    }
    0 < count
}

/// Twice the braces that are open behind one byte more, and one more in a comment, whose braces are none.
fn brace_step(count: usize, byte: u8) -> usize
    ensures { result ≡ brace_step count byte }
{
    if count % 2 == 1 {
        return if byte == b'\n' { count - 1 } else { count };
    }
    match byte {
        b'#' if count < 99 => count + 1,
        b'{' if count < 99 => count + 2,
        b'}' if 1 < count => count - 2,
        _ => count,
    }
}

/// Whether a text ends outside any function.
fn is_outside(text: &[u8]) -> bool
    ensures { result ≡ is_outside text.now }
{
    let mut count = 0;
    for byte in text {
        count = brace_step(count, *byte);
    }
    count < 2
}

/// What stands behind one byte more: a value's end (1), what a type follows (2), a `[` behind the one (3) or the other (4), or else (0); 10 more in a
/// comment.
fn bracket_step(kind: u8, byte: u8) -> u8
    ensures { result ≡ bracket_step kind byte }
{
    if kind > 9 {
        return if byte == b'\n' { kind - 10 } else { kind };
    }
    if byte == b'#' {
        return kind + 10;
    }
    if is_blank(byte) {
        return kind;
    }
    if byte == b'[' {
        return if kind == 1 {
            3
        } else if kind == 2 || kind == 4 {
            4
        } else {
            0
        };
    }
    if is_value_end(byte) {
        return 1;
    }
    if byte == b':' || byte == b'>' { 2 } else { 0 }
}

/// That of a whole text.
fn bracket_kind(text: &[u8]) -> u8
    ensures { result ≡ bracket_kind text.now }
{
    let mut kind = 0;
    for byte in text {
        kind = bracket_step(kind, *byte);
    }
    kind
}

/// Whether a value stands behind a text's last word.
fn is_value_wanted(text: &[u8]) -> bool
    ensures { result ≡ is_value_wanted text.now }
{
    if is_behind(text, b"return".as_slice()) || is_behind(text, b"print".as_slice()) {
        return true;
    }
    if is_behind(text, b"get".as_slice()) || is_behind(text, b"put".as_slice()) {
        return true;
    }
    is_behind(text, b"in".as_slice()) || is_behind(text, b"if".as_slice())
}

/// Whether a type stands behind a text's last word.
fn is_type_wanted(text: &[u8]) -> bool
    ensures { result ≡ is_type_wanted text.now }
{
    is_behind(text, b"empty".as_slice()) || is_behind(text, b"ref".as_slice())
}

/// Whether a type stands behind a text: behind a `:` or a `->`, one of these words, or a `[` behind them.
fn is_type_place(text: &[u8]) -> bool
    ensures { result ≡ is_type_place text.now }
{
    let kind = bracket_kind(text);
    kind == 2 || kind == 4 || is_type_wanted(text)
}

/// Whether a statement begins so that a variable's name stands in it: a `let`, a `set`, or a `for` without its `in`.
fn is_variable_named(front: &[u8]) -> bool
    ensures { result ≡ is_variable_named front.now }
{
    if has_word(front, b"let".as_slice()) || has_word(front, b"set".as_slice()) {
        return true;
    }
    has_word(front, b"for".as_slice()) && !has_word(front, b"in".as_slice())
}

/// Of a `]` right behind a `[`, with which the text before it ends.
fn bracket_hint(front: &[u8]) -> Option<Hint>
    ensures { result ≡ bracket_hint front.now }
{
    let kind = bracket_kind(front);
    if kind == 4 || is_type_wanted(front) {
        return Some(Hint::ListType);
    }
    if kind == 3 && !is_value_wanted(front) {
        return Some(Hint::Index);
    }
    Some(Hint::EmptyList)
}

/// Of a `:`, with the text before it and the last byte of that.
fn colon_hint(front: &[u8], before: u8) -> Option<Hint>
    ensures { result ≡ colon_hint front.now before }
{
    if is_within(front, b'[', b']') {
        return None;
    }
    if is_within(front, b'(', b')') {
        return Some(Hint::NamedArgument);
    }
    if before == b')' && has_word(front, b"fn".as_slice()) {
        return Some(Hint::NoResult);
    }
    if is_variable_named(front) {
        // Behind the = of a variable it is no type's.
        if is_within(front, b'=', 0) {
            return None;
        }
        return Some(Hint::VariableType);
    }
    Some(Hint::Colon)
}

/// Of a `{`, with the text before it and the last byte of that.
fn brace_hint(front: &[u8], before: u8) -> Option<Hint>
    ensures { result ≡ brace_hint front.now before }
{
    if is_within(front, b'(', b')') || is_within(front, b'[', b']') {
        return Some(Hint::Unclosed);
    }
    if has_word(front, b"in".as_slice()) {
        return Some(Hint::Bounds);
    }
    if before == b')' {
        return Some(Hint::NoResult);
    }
    None
}

/// Whether it is a word of the language.
fn is_reserved(token: &[u8]) -> bool
    ensures { result ≡ is_reserved token.now }
{
    if is_statement_word(token) || token == b"fn".as_slice() || token == b"else".as_slice() {
        return true;
    }
    if token == b"in".as_slice() || token == b"int".as_slice() || token == b"ref".as_slice() {
        return true;
    }
    if token == b"remote".as_slice() || token == b"put".as_slice() || token == b"get".as_slice() {
        return true;
    }
    token == b"len".as_slice() || token == b"push".as_slice() || token == b"empty".as_slice()
}

/// Whether a name stands behind a text that ends with that byte.
fn is_name_wanted(front: &[u8], before: u8) -> bool
    ensures { result ≡ is_name_wanted front.now before }
{
    if before == b'(' || before == b',' {
        return true;
    }
    if is_behind(front, b"fn".as_slice()) || is_behind(front, b"let".as_slice()) {
        return true;
    }
    is_behind(front, b"set".as_slice()) || is_behind(front, b"for".as_slice())
}

/// Of a token at which a statement was to begin, with the byte behind it.
fn inner_hint(token: &[u8], behind: u8) -> Option<Hint>
    ensures { result ≡ inner_hint token.now behind }
{
    if behind == b';' || behind == b'}' {
        if token == b"break".as_slice() || token == b"continue".as_slice() {
            return Some(Hint::Break);
        }
    }
    if token == b"remote".as_slice() || token == b"get".as_slice() || token == b"put".as_slice() {
        return Some(Hint::LoneValue);
    }
    if token == b"push".as_slice() && behind == b'(' {
        return Some(Hint::LonePush);
    }
    if behind == b'[' && is_letter(byte_at(token, 0)) && !is_reserved(token) {
        return Some(Hint::Item);
    }
    statement_hint(behind)
}

/// Of a token at which a function or a statement was to begin, with the text before it and the byte behind it.
fn begun_hint(token: &[u8], front: &[u8], behind: u8) -> Option<Hint>
    ensures { result ≡ begun_hint token.now front.now behind }
{
    if !is_outside(front) {
        return inner_hint(token, behind);
    }
    if is_letter(byte_at(token, 0)) && behind != 0 {
        return Some(Hint::Function);
    }
    None
}

/// Whether a `,` inside brackets is that of a tuple: it is in no call of `len` or `push`, and in no head of a function.
fn is_tuple(front: &[u8], before: u8) -> bool
    ensures { result ≡ is_tuple front.now before }
{
    if !is_value_end(before) || !is_within(front, b'(', b')') {
        return false;
    }
    if has_word(front, b"len".as_slice()) || has_word(front, b"push".as_slice()) {
        return false;
    }
    !has_word(front, b"fn".as_slice())
}

/// Of a token behind a `set`, with the byte behind it.
fn set_hint(token: &[u8], front: &[u8], behind: u8) -> Option<Hint>
    ensures { result ≡ set_hint token.now front.now behind }
{
    if !has_word(front, b"set".as_slice()) || is_behind(front, b"set".as_slice()) {
        return None;
    }
    if token == b"[".as_slice() {
        return Some(Hint::Item);
    }
    if token == b",".as_slice() && !is_within(front, b'[', b']') {
        return Some(Hint::SetOne);
    }
    if is_sum_sign(byte_at(token, 0)) && (behind == b'=' || behind == byte_at(token, 0)) {
        return Some(Hint::Sum);
    }
    None
}

/// Of a token behind a word that other languages have there, of such a word, or of a token behind a `set`.
fn word_hint(token: &[u8], front: &[u8], behind: u8) -> Option<Hint>
    ensures { result ≡ word_hint token.now front.now behind }
{
    if token == b"and".as_slice() {
        return Some(Hint::And);
    }
    if token == b"or".as_slice() {
        return Some(Hint::Or);
    }
    if is_in_word(byte_at(token, 0)) && is_behind(front, b"not".as_slice()) {
        return Some(Hint::Not);
    }
    if is_in_word(byte_at(token, 0)) && is_behind(front, b"mut".as_slice()) {
        return Some(Hint::Mutable);
    }
    set_hint(token, front, behind)
}

/// Of a token that stands inside a statement, where no semicolon is missing.
fn place_hint(token: &[u8], front: &[u8], before: u8, behind: u8) -> Option<Hint>
    ensures { result ≡ place_hint token.now front.now before behind }
{
    if token == b"(".as_slice() && is_behind(front, b"for".as_slice()) {
        return Some(Hint::Bounds);
    }
    if token == b"(".as_slice() && is_behind(front, b"let".as_slice()) {
        return Some(Hint::Tuple);
    }
    if token == b"(".as_slice() && is_behind(front, b"set".as_slice()) {
        return Some(Hint::SetOne);
    }
    if token == b",".as_slice() && is_tuple(front, before) {
        return Some(Hint::Tuple);
    }
    if token == b"=".as_slice() && before == b'.' {
        return Some(Hint::Inclusive);
    }
    word_hint(token, front, behind)
}

/// Whether a token that the grammar does not allow there is of the `//` or `/*` with which a comment begins elsewhere.
fn is_slash_comment(token: &[u8], before: u8, behind: u8) -> bool
    ensures { result ≡ is_slash_comment token.now before behind }
{
    if token == b"/".as_slice() {
        return before == b'/' || behind == b'/' || behind == b'*';
    }
    token == b"*".as_slice() && before == b'/'
}

/// Whether a token is a name, or a `(`, where a type stands.
fn is_type_word(token: &[u8], front: &[u8]) -> bool
    ensures { result ≡ is_type_word token.now front.now }
{
    if !is_letter(byte_at(token, 0)) && token != b"(".as_slice() {
        return false;
    }
    is_type_place(front)
}

/// Of a token that is none of those.
fn inside_hint(token: &[u8], front: &[u8], before: u8, behind: u8) -> Option<Hint>
    ensures { result ≡ inside_hint token.now front.now before behind }
{
    if is_retries(front) {
        return Some(Hint::Retries);
    }
    if is_type_word(token, front) {
        return Some(Hint::TypeName);
    }
    if is_reserved(token) && is_name_wanted(front, before) {
        return Some(Hint::Reserved);
    }
    if before == 0 || is_statement_begun(before) {
        return begun_hint(token, front, behind);
    }
    if !lacks_semicolon(token, before) {
        return place_hint(token, front, before, behind);
    }
    if is_within(front, b'[', b']') || is_within(front, b'(', b')') {
        return Some(Hint::Unclosed);
    }
    Some(Hint::Semicolon)
}

/// Of a `:`, of a bracket, of what stands behind a comma, and of a `for` in a list; else as `inside_hint`.
fn mark_place_hint(token: &[u8], front: &[u8], before: u8, behind: u8) -> Option<Hint>
    ensures { result ≡ mark_place_hint token.now front.now before behind }
{
    if token == b":".as_slice() {
        return colon_hint(front, before);
    }
    if token == b"{".as_slice() {
        return brace_hint(front, before);
    }
    if token == b"]".as_slice() && before == b'[' {
        return bracket_hint(front);
    }
    if before == b',' && (token == b"]".as_slice() || token == b")".as_slice()) {
        return Some(Hint::LastComma);
    }
    if token == b"for".as_slice() && is_within(front, b'[', b']') {
        return Some(Hint::ListLoop);
    }
    inside_hint(token, front, before, behind)
}

/// Whether a token is an `if` behind an `else`, or an `elif` behind a block.
fn is_else_if(token: &[u8], front: &[u8], before: u8) -> bool
    ensures { result ≡ is_else_if token.now front.now before }
{
    if token == b"elif".as_slice() {
        return before == b'}';
    }
    token == b"if".as_slice() && is_behind(front, b"else".as_slice())
}

/// Of a token that the grammar does not allow there, with the text before it and the bytes before and behind it that are no blanks.
fn token_hint(token: &[u8], front: &[u8], before: u8, behind: u8) -> Option<Hint>
    ensures { result ≡ token_hint token.now front.now before behind }
{
    if token == b"while".as_slice() {
        return Some(Hint::While);
    }
    if is_else_if(token, front, before) {
        return Some(Hint::ElseIf);
    }
    if is_slash_comment(token, before, behind) {
        return Some(Hint::SlashComment);
    }
    mark_place_hint(token, front, before, behind)
}

/// Of a name that is not in scope.
fn name_hint(name: &[u8]) -> Option<Hint>
    ensures { result ≡ name_hint name.now }
{
    if name == b"true".as_slice() || name == b"false".as_slice() {
        return Some(Hint::Truth);
    }
    if name == b"not".as_slice() {
        return Some(Hint::Not);
    }
    None
}

impl Hint {
    /// What was meant at a span of a text that is refused with that number, where that can be guessed.
    pub fn of(code: u16, text: &[u8], start: usize, end: usize) -> Option<Hint>
        ensures { result ≡ hint_of code text.now start end }
    {
        if end > text.len() || start > end {
            return None;
        }
        match code {
            1 => mark_hint(text, start),
            2 => run_hint(&text[start..end], byte_at(text, start + 1)),
            3 => token_hint(
                &text[start..end],
                &text[..start],
                byte_before(&text[..start]),
                byte_behind(&text[end..]),
            ),
            10 => name_hint(&text[start..end]),
            _ => None,
        }
    }

    /// How that is said in the language, as one line.
    pub fn words(self) -> &'static str
        ensures { result.now ≡ hint_words self }
    {
        match self {
            Hint::Greater => "there is no >: a > b is b < a",
            Hint::AtLeast => "there is no >=: a >= b is b <= a",
            Hint::And =>
                "there is no && and no word and: one if stands inside another, or a * b where both are 0 or 1",
            Hint::Ampersand =>
                "there is no &: put 1 makes a reference, of the type ref int, and nothing works on bits",
            Hint::Or => "there is no ||, no | and no word or: 0 < a + b, where both are 0 or 1",
            Hint::Not => "there is no !, no word not and no macro: not a is a == 0",
            Hint::Text => "there are no texts: values are numbers, lists and references",
            Hint::Fraction => "there are no fractions, and .. stands between the bounds of a loop",
            Hint::Method => "there are no methods: push(l, 3), len(l), remote f(1), get r",
            Hint::CapitalLetter => "names have small letters, digits and _ alone",
            Hint::SlashComment =>
                "a comment begins with # and ends with its line, and a quotient is written a / b",
            Hint::While => {
                "there is no while: a for over as many turns as there may be, in a function that returns when it is done"
            }
            Hint::ElseIf => "there is no else if and no elif: else { if a { } }",
            Hint::Assignment =>
                "let x = 2; makes a variable, and set x = 2; gives it another value",
            Hint::Statement => {
                "a statement begins with let, set, if, for, print or return: set x = x + 1;"
            }
            Hint::LoneCall => "a call alone is no statement: let unused = f();",
            Hint::LonePush => "push gives a new list: set l = push(l, 3);",
            Hint::LoneValue => "a value alone is no statement: let r = remote f(); let x = get r;",
            Hint::Break =>
                "there is no break and no continue: a return ends a loop and its function, and an if leaves out a part of a turn",
            Hint::Item =>
                "no item of a list can be set: set m = push(m, x); in a loop makes a new list",
            Hint::Sum => "a variable's new value is written whole: set x = x + 1;",
            Hint::Mutable =>
                "there is no mut, since every variable can be set: let x = 1; set x = 2;",
            Hint::Tuple =>
                "there are no tuples: [1, 2] is a list, return 1, 2; gives two results, and let a, b = f(); takes them",
            Hint::ListLoop =>
                "a [ before it is not closed, and no for stands in a list: set l = push(l, x); in a loop makes one",
            Hint::EmptyList => "an empty list says of which type its items are: empty int",
            Hint::ListType => "a list's type names that of its items: [int]",
            Hint::Index => "an index stands between the brackets: l[0]",
            Hint::LastComma => "no comma stands behind the last one",
            Hint::Colon => "a block stands in { } and not behind a :",
            Hint::VariableType => "a variable's type isn't written: let x = 1;",
            Hint::TypeName => "the types are int, [int] for a list, and ref int for a reference",
            Hint::SetOne => "set gives one variable a value: let a, b = f(); set x = a; set y = b;",
            Hint::NoResult => "a function says of which type its result is: fn f() -> int { }",
            Hint::Bounds =>
                "a loop counts from one bound to another: for i in 0 .. len(l) { let x = l[i]; }",
            Hint::Inclusive =>
                "there is no ..=, and a loop leaves out its second bound: for i in 1 .. n + 1 { }",
            Hint::Retries =>
                "one number alone stands in the brackets behind remote, how many retries there may be: remote(2) f(1)",
            Hint::Truth => "there are no truth values: 1 and 0 stand for them",
            Hint::Semicolon => {
                "a statement ends with ;, the block of an if or a for stands in { }, and an if is no value"
            }
            Hint::Unclosed => "a ( or a [ before it is not closed",
            Hint::NamedArgument => "an argument has no name: f(1)",
            Hint::Reserved => "this is a word of the language, and can't be a name",
            Hint::Function => "a function begins with fn, and every statement stands in one",
            Hint::ByteOrderMark =>
                "a byte order mark stands before the script: save the file without one",
            Hint::LeastNumber => "the least number is written -9223372036854775807 - 1",
        }
    }
}

impl fmt::Display for Hint {
    ghost use Rattle.std.specs.Prelude.{Some};

    ghost output = { λ h. Some (hint_words h) };

    fn fmt<W: fmt::Write>(&self, f: &mut fmt::Formatter<W>) -> fmt::Result {
        f.write_str(self.words())
    }
}
