// The kind of an answer, and its number.
#![tactic(auto)]

ghost use Rattle.std.specs.Prelude.{◌≡◌};
ghost use Rattle.kinds.specs.Numbers.{kind_number, which_relation};

use registry::Relation;

// What was asked.
#[derive(Clone, Copy)]
pub enum Kind {
    Ip,
    Autnum,
    Domain,
    Nameserver,
    Entity,
    Help,
    Search,
    Relation(Relation),
}

// The kind as a number (S3.3): 1 ip to 8 relation, 0 where there is none, as no query was read.
pub fn kind_number(kind: Option<Kind>) -> u32
    ensures { result ≡ kind_number kind }
{
    match kind {
        None => 0,
        Some(Kind::Ip) => 1,
        Some(Kind::Autnum) => 2,
        Some(Kind::Domain) => 3,
        Some(Kind::Nameserver) => 4,
        Some(Kind::Entity) => 5,
        Some(Kind::Help) => 6,
        Some(Kind::Search) => 7,
        Some(Kind::Relation(_)) => 8,
    }
}

// Which relation a kind is: 1 up, 2 down, 3 top, 4 bottom, 0 where it is none.
pub fn relation_number(kind: Option<Kind>) -> u32
    ensures { result ≡ which_relation kind }
{
    match kind {
        Some(Kind::Relation(Relation::Up)) => 1,
        Some(Kind::Relation(Relation::Down)) => 2,
        Some(Kind::Relation(Relation::Top)) => 3,
        Some(Kind::Relation(Relation::Bottom)) => 4,
        _ => 0,
    }
}
