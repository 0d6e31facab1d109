#![tactic(auto, using(crate::proofs::Writing::written_append, crate::proofs::Writing::extends_one, crate::proofs::Writing::extends_written))]

ghost use Rattle.std.specs.Prelude.{◌≡◌, false, map, OnOk, OnErr};
ghost use Rattle.lus_syntax.specs.Phrases as spec;
ghost use Rattle.lus_syntax.specs.Phrases.{Extends, written, phrase, argument, arguments, one_kind, two_kind, one_rank, infix_for};

use crate::ast::{BinOp, Expr, ExprKind, UnOp};
use crate::operators::{Grouping, Infix, infix_of, left_rank, prefix_of, right_rank};
use crate::printing::tokens::{
    BLANK, JOINED, put_name, put_number, put_operator, put_sign, put_word,
};
use crate::token::{Keyword, Symbol, TokenKind};
use cov_base::{List, Memory};

/// Appends an expression.
#[cycle(put_expr)]
pub(crate) fn put_expr(expr: &Expr, out: &mut List<u8>) -> Result<(), Memory>
    ensures ok { OnOk result (out.new ≡ written out.old (phrase expr.now).lexemes) }
    ensures err { OnErr result (Extends out.old out.new) }
{
    match &expr.kind {
        ExprKind::Name(name) => put_name(out, BLANK, name.bytes()),
        ExprKind::Number(number) => put_number(out, *number),
        ExprKind::Truth(truth) => put_word(out, BLANK, truth_word(*truth)),
        ExprKind::One(op, a) => {
            put_operator(out, one_kind(*op))?;
            let a = a.get();
            put_operand(a, fits_one(*op, a), out)
        }
        ExprKind::Two(op, a, b) => {
            let (a, b) = (a.get(), b.get());
            put_operand(a, fits_left(*op, a), out)?;
            put_operator(out, two_kind(*op))?;
            put_operand(b, fits_right(*op, b), out)
        }
        ExprKind::Cond(a, b, c) => {
            let (a, b, c) = (a.get(), b.get(), c.get());
            put_word(out, BLANK, Keyword::If)?;
            put_expr(a, out)?;
            put_word(out, BLANK, Keyword::Then)?;
            put_expr(b, out)?;
            put_word(out, BLANK, Keyword::Else)?;
            put_expr(c, out)
        }
        ExprKind::Call(name, args) => {
            put_name(out, BLANK, name.bytes())?;
            put_sign(out, JOINED, Symbol::OpenParen)?;
            put_arguments(args.as_slice(), out)?;
            put_sign(out, JOINED, Symbol::CloseParen)
        }
    }
}

/// Appends an operand, in parentheses where it doesn't stand without them.
#[cycle(put_expr)]
fn put_operand(expr: &Expr, stands: bool, out: &mut List<u8>) -> Result<(), Memory>
    ensures ok { OnOk result (out.new ≡ written out.old (spec.operand stands (phrase expr.now))) }
    ensures err { OnErr result (Extends out.old out.new) }
{
    if stands {
        put_expr(expr, out)
    } else {
        put_sign(out, BLANK, Symbol::OpenParen)?;
        put_expr(expr, out)?;
        put_sign(out, JOINED, Symbol::CloseParen)
    }
}

#[cycle(put_expr)]
fn put_arguments(args: &[Expr], out: &mut List<u8>) -> Result<(), Memory>
    ensures ok { OnOk result (out.new ≡ written out.old (arguments false (map phrase args.now))) }
    ensures err { OnErr result (Extends out.old out.new) }
{
    let mut later = false;
    for arg in args {
        put_argument(arg, later, out)?;
        later = true;
    }
    Ok(())
}

/// Appends an argument, behind a comma if it isn't the first.
#[cycle(put_expr)]
fn put_argument(arg: &Expr, later: bool, out: &mut List<u8>) -> Result<(), Memory>
    ensures ok { OnOk result (out.new ≡ written out.old (argument later (phrase arg.now))) }
    ensures err { OnErr result (Extends out.old out.new) }
{
    if later {
        put_sign(out, JOINED, Symbol::Comma)?;
    }
    put_expr(arg, out)
}

fn truth_word(truth: bool) -> Keyword
    ensures { result ≡ spec.truth_word truth }
{
    if truth { Keyword::True } else { Keyword::False }
}

/// The token of an operator before an operand.
fn one_kind(op: UnOp) -> TokenKind
    ensures { result ≡ one_kind op }
{
    match op {
        UnOp::Not => TokenKind::Word(Keyword::Not),
        UnOp::Neg => TokenKind::Sign(Symbol::Minus),
        UnOp::Pre => TokenKind::Word(Keyword::Pre),
        UnOp::Current => TokenKind::Word(Keyword::Current),
    }
}

/// The token of an operator between operands.
fn two_kind(op: BinOp) -> TokenKind
    ensures { result ≡ two_kind op }
{
    match op {
        BinOp::And => TokenKind::Word(Keyword::And),
        BinOp::Or => TokenKind::Word(Keyword::Or),
        BinOp::Xor => TokenKind::Word(Keyword::Xor),
        BinOp::Imp => TokenKind::Sign(Symbol::Implies),
        BinOp::Eq => TokenKind::Sign(Symbol::Equals),
        BinOp::Ne => TokenKind::Sign(Symbol::NotEqual),
        BinOp::Lt => TokenKind::Sign(Symbol::Less),
        BinOp::Le => TokenKind::Sign(Symbol::LessEqual),
        BinOp::Gt => TokenKind::Sign(Symbol::Greater),
        BinOp::Ge => TokenKind::Sign(Symbol::GreaterEqual),
        BinOp::Add => TokenKind::Sign(Symbol::Plus),
        BinOp::Sub => TokenKind::Sign(Symbol::Minus),
        BinOp::Mul => TokenKind::Sign(Symbol::Times),
        BinOp::Div => TokenKind::Word(Keyword::Div),
        BinOp::Mod => TokenKind::Word(Keyword::Mod),
        BinOp::Arrow => TokenKind::Sign(Symbol::Arrow),
        BinOp::Fby => TokenKind::Word(Keyword::Fby),
        BinOp::When => TokenKind::Word(Keyword::When),
    }
}

/// An operator's rank in the table of operators.
fn one_rank(op: UnOp) -> u8
    ensures { result ≡ one_rank op }
{
    match prefix_of(one_kind(op)) {
        Some(prefix) => prefix.rank,
        None => 0,
    }
}

/// An operator in the table of operators.
fn infix_for(op: BinOp) -> Infix
    ensures { result ≡ infix_for op }
{
    match infix_of(two_kind(op)) {
        Some(infix) => infix,
        None => Infix {
            rank: 0,
            grouping: Grouping::Alone,
            op,
        },
    }
}

fn is_pre(op: UnOp) -> bool
    ensures { result ≡ spec.is_pre op }
{
    match op {
        UnOp::Pre => true,
        UnOp::Not | UnOp::Neg | UnOp::Current => false,
    }
}

fn is_not(op: UnOp) -> bool
    ensures { result ≡ spec.is_not op }
{
    match op {
        UnOp::Not => true,
        UnOp::Pre | UnOp::Neg | UnOp::Current => false,
    }
}

/// The rank of an expression's operator.
fn phrase_rank(expr: &Expr) -> u8
    ensures { result ≡ (phrase expr.now).rank }
{
    match &expr.kind {
        ExprKind::Name(_) | ExprKind::Number(_) | ExprKind::Truth(_) | ExprKind::Call(_, _) => 0,
        ExprKind::One(op, _) => one_rank(*op),
        ExprKind::Two(op, _, _) => infix_for(*op).rank,
        ExprKind::Cond(_, _, _) => 1,
    }
}

/// Whether an expression is a chain of `not`s before an operand of rank 1 or in parentheses, which
/// may stand behind `pre`.
fn is_nots(expr: &Expr) -> bool
    ensures { result ≡ (phrase expr.now).is_nots }
{
    match &expr.kind {
        ExprKind::One(op, a) => {
            let a = a.get();
            is_not(*op) && (phrase_rank(a) <= 1 || phrase_rank(a) > one_rank(*op) || is_nots(a))
        }
        ExprKind::Name(_)
        | ExprKind::Number(_)
        | ExprKind::Truth(_)
        | ExprKind::Two(_, _, _)
        | ExprKind::Cond(_, _, _)
        | ExprKind::Call(_, _) => false,
    }
}

/// Whether an expression ends in an `if` without parentheses.
fn ends_open(expr: &Expr) -> bool
    ensures { result ≡ (phrase expr.now).is_open }
{
    match &expr.kind {
        ExprKind::One(op, a) => fits_one(*op, a.get()) && ends_open(a.get()),
        ExprKind::Two(op, _, b) => fits_right(*op, b.get()) && ends_open(b.get()),
        ExprKind::Cond(_, _, _) => true,
        ExprKind::Name(_) | ExprKind::Number(_) | ExprKind::Truth(_) | ExprKind::Call(_, _) =>
            false,
    }
}

/// Whether the operand stands without parentheses.
fn fits_one(op: UnOp, a: &Expr) -> bool
    ensures { result ≡ spec.fits_one op (phrase a.now) }
{
    phrase_rank(a) <= one_rank(op) || is_pre(op) && is_nots(a)
}

/// Whether the left operand stands without parentheses.
fn fits_left(op: BinOp, a: &Expr) -> bool
    ensures { result ≡ spec.fits_left op (phrase a.now) }
{
    phrase_rank(a) <= left_rank(infix_for(op)) && !ends_open(a)
}

/// Whether the right operand stands without parentheses.
fn fits_right(op: BinOp, b: &Expr) -> bool
    ensures { result ≡ spec.fits_right op (phrase b.now) }
{
    phrase_rank(b) <= right_rank(infix_for(op))
}
