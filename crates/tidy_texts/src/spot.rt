//! Where a character of Rust text stands, and whether a space comes before it.
ghost use Rattle.std.specs.Prelude.{◌≡◌};
ghost use Rattle.tidy_texts.specs.Tidy.{is_end as ends, is_call as calls, is_opening as opens, is_sign as signs, before_of, inside_next, outside_next, is_inside as inside, wants_space as wants, needs_space as needs, shows as is_shown, next as next_spot, start as at_start};

/// What stands before a character: nothing or what the next token follows at once, a name or a number, another token, or the
/// inside of a string literal, maybe behind a backslash.
#[derive(Clone, Copy)]
pub enum Before {
    Open,
    Name,
    Other,
    Literal,
    Escape,
}

/// What stands before a character, and whether a space was passed over.
#[derive(Clone, Copy)]
pub struct Spot {
    pub before: Before,
    pub space: bool,
}

// It follows what stands before it at once.
fn is_end(ch: char) -> bool
    ensures { result ≡ ends ch }
{
    ch == ')' || ch == ']' || ch == ',' || ch == ';' || ch == '>' || ch == '<'
}

// It follows a name at once.
fn is_call(ch: char) -> bool
    ensures { result ≡ calls ch }
{
    ch == '(' || ch == '[' || ch == ':'
}

// The next token follows it at once.
fn is_opening(ch: char) -> bool
    ensures { result ≡ opens ch }
{
    ch == '(' || ch == '[' || ch == '<' || ch == ':' || ch == '#' || ch == '&'
}

// It is no part of a name.
fn is_sign(ch: char) -> bool
    ensures { result ≡ signs ch }
{
    ch == ')' || ch == ']' || ch == '>' || ch == ',' || ch == ';' || ch == '='
}

fn standing_before(ch: char) -> Before
    ensures { result ≡ before_of ch }
{
    if ch == '"' {
        return Before::Literal;
    }
    if is_opening(ch) {
        return Before::Open;
    }
    if is_sign(ch) {
        return Before::Other;
    }
    Before::Name
}

fn is_inside(before: Before) -> bool
    ensures { result ≡ inside before }
{
    match before {
        Before::Open | Before::Name | Before::Other => false,
        Before::Literal | Before::Escape => true,
    }
}

// Whether rustfmt leaves a space between the two.
fn wants_space(before: Before, ch: char) -> bool
    ensures { result ≡ wants before ch }
{
    match before {
        Before::Name => !(is_end(ch) || is_call(ch)),
        Before::Other => !is_end(ch),
        Before::Open | Before::Literal | Before::Escape => false,
    }
}

fn inside_next(ch: char) -> Before
    ensures { result ≡ inside_next ch }
{
    if ch == '"' {
        return Before::Other;
    }
    if ch == '\\' {
        return Before::Escape;
    }
    Before::Literal
}

fn outside_next(spot: Spot, ch: char) -> Spot
    ensures { result ≡ outside_next spot ch }
{
    if ch == ' ' {
        return Spot {
            before: spot.before,
            space: true,
        };
    }
    Spot {
        before: standing_before(ch),
        space: false,
    }
}

impl Spot {
    /// The beginning of a text.
    pub fn start() -> Spot
        ensures { result ≡ at_start }
    {
        Spot {
            before: Before::Open,
            space: false,
        }
    }

    // Whether a space comes before the character.
    pub(crate) fn needs_space(self, ch: char) -> bool
        ensures { result ≡ needs self ch }
    {
        let Spot { before, space } = self;
        space && ch != ' ' && wants_space(before, ch)
    }

    // Whether the character shows, and isn't the space between two tokens.
    pub(crate) fn shows(self, ch: char) -> bool
        ensures { result ≡ is_shown self ch }
    {
        is_inside(self.before) || ch != ' '
    }

    // Behind the character.
    pub(crate) fn after(self, ch: char) -> Spot
        ensures { result ≡ next_spot self ch }
    {
        match self.before {
            Before::Escape => Spot {
                before: Before::Literal,
                space: false,
            },
            Before::Literal => Spot {
                before: inside_next(ch),
                space: false,
            },
            Before::Open | Before::Name | Before::Other => outside_next(self, ch),
        }
    }
}
