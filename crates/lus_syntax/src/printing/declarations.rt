#![tactic(auto, using(crate::proofs::Writing::written_append, crate::proofs::Writing::extends_one, crate::proofs::Writing::extends_written))]

ghost use Rattle.std.specs.Prelude.{◌≡◌, Some, OnOk, OnErr};
ghost use Rattle.lus_syntax.specs.Phrases as spec;
ghost use Rattle.lus_syntax.specs.Phrases.{Extends, asserted, clocked, const_decl, enumeration, equated, group_line, heading, in_parens, more_params, params, type_decl, typed, written};

use crate::ast::{Decl, Expr, Group, Item, Spot};
use crate::printing::expressions::put_expr;
use crate::printing::tokens::{
    BLANK, INDENT, JOINED, LINE, put_name, put_sign, put_type, put_word,
};
use crate::token::{Keyword, Symbol};
use cov_base::{List, Memory};

/// Appends a declaration.
pub(crate) fn put_decl(decl: &Decl, out: &mut List<u8>) -> Result<(), Memory>
    ensures ok { OnOk result (out.new ≡ written out.old (spec.decl decl.now)) }
    ensures err { OnErr result (Extends out.old out.new) }
{
    match decl {
        Decl::TypeDecl { name, choices, .. } => put_enum(name, choices.as_slice(), out),
        Decl::ConstDecl {
            name,
            ty,
            value,
            ..
        } => put_const(name, ty, value, out),
        Decl::NodeDecl {
            name,
            inputs,
            outputs,
            locals,
            items,
            ..
        } => {
            put_heading(name, inputs.as_slice(), outputs.as_slice(), out)?;
            put_body(locals.as_slice(), items.as_slice(), out)
        }
    }
}

fn put_enum(name: &Spot, choices: &[Spot], out: &mut List<u8>) -> Result<(), Memory>
    ensures ok { OnOk result (out.new ≡ written out.old (type_decl name.now choices.now)) }
    ensures err { OnErr result (Extends out.old out.new) }
{
    put_word(out, LINE, Keyword::TypeWord)?;
    put_name(out, BLANK, name.text.bytes())?;
    put_sign(out, BLANK, Symbol::Equals)?;
    put_choices(choices, out)
}

/// Appends what stands behind the `=`.
fn put_choices(choices: &[Spot], out: &mut List<u8>) -> Result<(), Memory>
    ensures ok { OnOk result (out.new ≡ written out.old (enumeration choices.now)) }
    ensures err { OnErr result (Extends out.old out.new) }
{
    put_word(out, BLANK, Keyword::Enum)?;
    put_sign(out, BLANK, Symbol::OpenBrace)?;
    put_names(choices, BLANK, out)?;
    put_sign(out, BLANK, Symbol::CloseBrace)?;
    put_sign(out, JOINED, Symbol::Semicolon)
}

fn put_const(
    name: &Spot,
    ty: &Option<Spot>,
    value: &Option<Expr>,
    out: &mut List<u8>,
) -> Result<(), Memory>
    ensures ok { OnOk result (out.new ≡ written out.old (const_decl name.now ty.now value.now)) }
    ensures err { OnErr result (Extends out.old out.new) }
{
    put_word(out, LINE, Keyword::Const)?;
    put_name(out, BLANK, name.text.bytes())?;
    if let Some(ty) = ty {
        put_typed(ty, out)?;
    }
    match value {
        Some(value) => put_value(value, out),
        None => put_sign(out, JOINED, Symbol::Semicolon),
    }
}

/// Appends a `=`, an expression and a `;`.
fn put_value(expr: &Expr, out: &mut List<u8>) -> Result<(), Memory>
    ensures ok { OnOk result (out.new ≡ written out.old (equated expr.now)) }
    ensures err { OnErr result (Extends out.old out.new) }
{
    put_sign(out, BLANK, Symbol::Equals)?;
    put_expr(expr, out)?;
    put_sign(out, JOINED, Symbol::Semicolon)
}

/// Appends a `:` and a type.
fn put_typed(ty: &Spot, out: &mut List<u8>) -> Result<(), Memory>
    ensures ok { OnOk result (out.new ≡ written out.old (typed ty.now)) }
    ensures err { OnErr result (Extends out.old out.new) }
{
    put_sign(out, JOINED, Symbol::Colon)?;
    put_type(out, ty.text.bytes())
}

fn put_names(names: &[Spot], lead: &[u8], out: &mut List<u8>) -> Result<(), Memory>
    ensures ok { OnOk result (out.new ≡ written out.old (spec.names lead.now names.now)) }
    ensures err { OnErr result (Extends out.old out.new) }
{
    if names.is_empty() {
        return Ok(());
    }
    put_name(out, lead, names[0].text.bytes())?;
    put_more_names(names.split_at(1).1, out)
}

fn put_more_names(names: &[Spot], out: &mut List<u8>) -> Result<(), Memory>
    ensures ok { OnOk result (out.new ≡ written out.old (spec.more_names names.now)) }
    ensures err { OnErr result (Extends out.old out.new) }
{
    for name in names {
        put_more_name(name, out)?;
    }
    Ok(())
}

/// Appends a name behind a comma.
fn put_more_name(name: &Spot, out: &mut List<u8>) -> Result<(), Memory>
    ensures ok { OnOk result (out.new ≡ written out.old (spec.more_name name.now)) }
    ensures err { OnErr result (Extends out.old out.new) }
{
    put_sign(out, JOINED, Symbol::Comma)?;
    put_name(out, BLANK, name.text.bytes())
}

fn put_group(group: &Group, lead: &[u8], out: &mut List<u8>) -> Result<(), Memory>
    ensures ok { OnOk result (out.new ≡ written out.old (spec.group lead.now group.now)) }
    ensures err { OnErr result (Extends out.old out.new) }
{
    put_names(group.names.as_slice(), lead, out)?;
    put_typed(&group.ty, out)?;
    match &group.clock {
        Some(clock) => put_clock(clock, out),
        None => Ok(()),
    }
}

fn put_clock(clock: &Spot, out: &mut List<u8>) -> Result<(), Memory>
    ensures ok { OnOk result (out.new ≡ written out.old (clocked (Some clock.now))) }
    ensures err { OnErr result (Extends out.old out.new) }
{
    put_word(out, BLANK, Keyword::When)?;
    put_name(out, BLANK, clock.text.bytes())
}

/// Appends groups in parentheses.
fn put_params(groups: &[Group], lead: &[u8], out: &mut List<u8>) -> Result<(), Memory>
    ensures ok { OnOk result (out.new ≡ written out.old (in_parens lead.now (params groups.now))) }
    ensures err { OnErr result (Extends out.old out.new) }
{
    put_sign(out, lead, Symbol::OpenParen)?;
    put_groups(groups, out)?;
    put_sign(out, JOINED, Symbol::CloseParen)
}

fn put_groups(groups: &[Group], out: &mut List<u8>) -> Result<(), Memory>
    ensures ok { OnOk result (out.new ≡ written out.old (params groups.now)) }
    ensures err { OnErr result (Extends out.old out.new) }
{
    if groups.is_empty() {
        return Ok(());
    }
    put_group(&groups[0], BLANK, out)?;
    put_more_groups(groups.split_at(1).1, out)
}

fn put_more_groups(groups: &[Group], out: &mut List<u8>) -> Result<(), Memory>
    ensures ok { OnOk result (out.new ≡ written out.old (more_params groups.now)) }
    ensures err { OnErr result (Extends out.old out.new) }
{
    for group in groups {
        put_more_group(group, out)?;
    }
    Ok(())
}

/// Appends a group behind a semicolon.
fn put_more_group(group: &Group, out: &mut List<u8>) -> Result<(), Memory>
    ensures ok { OnOk result (out.new ≡ written out.old (spec.more_group group.now)) }
    ensures err { OnErr result (Extends out.old out.new) }
{
    put_sign(out, JOINED, Symbol::Semicolon)?;
    put_group(group, BLANK, out)
}

fn put_heading(
    name: &Spot,
    inputs: &[Group],
    outputs: &[Group],
    out: &mut List<u8>,
) -> Result<(), Memory>
    ensures ok { OnOk result (out.new ≡ written out.old (heading name.now inputs.now outputs.now)) }
    ensures err { OnErr result (Extends out.old out.new) }
{
    put_word(out, LINE, Keyword::Node)?;
    put_name(out, BLANK, name.text.bytes())?;
    put_params(inputs, JOINED, out)?;
    put_word(out, BLANK, Keyword::Returns)?;
    put_params(outputs, BLANK, out)?;
    put_sign(out, JOINED, Symbol::Semicolon)
}

fn put_body(locals: &[Group], items: &[Item], out: &mut List<u8>) -> Result<(), Memory>
    ensures ok { OnOk result (out.new ≡ written out.old (spec.body locals.now items.now)) }
    ensures err { OnErr result (Extends out.old out.new) }
{
    put_locals(locals, out)?;
    put_word(out, LINE, Keyword::Let)?;
    put_items(items, out)?;
    put_word(out, LINE, Keyword::Tel)
}

fn put_locals(groups: &[Group], out: &mut List<u8>) -> Result<(), Memory>
    ensures ok { OnOk result (out.new ≡ written out.old (spec.locals groups.now)) }
    ensures err { OnErr result (Extends out.old out.new) }
{
    if groups.is_empty() {
        return Ok(());
    }
    put_word(out, LINE, Keyword::Var)?;
    put_lines(groups, out)
}

fn put_lines(groups: &[Group], out: &mut List<u8>) -> Result<(), Memory>
    ensures ok { OnOk result (out.new ≡ written out.old (spec.lines groups.now)) }
    ensures err { OnErr result (Extends out.old out.new) }
{
    for group in groups {
        put_line(group, out)?;
    }
    Ok(())
}

/// Appends a group on a line of its own.
fn put_line(group: &Group, out: &mut List<u8>) -> Result<(), Memory>
    ensures ok { OnOk result (out.new ≡ written out.old (group_line group.now)) }
    ensures err { OnErr result (Extends out.old out.new) }
{
    put_group(group, INDENT, out)?;
    put_sign(out, JOINED, Symbol::Semicolon)
}

fn put_items(items: &[Item], out: &mut List<u8>) -> Result<(), Memory>
    ensures ok { OnOk result (out.new ≡ written out.old (spec.items items.now)) }
    ensures err { OnErr result (Extends out.old out.new) }
{
    for item in items {
        put_item(item, out)?;
    }
    Ok(())
}

fn put_item(item: &Item, out: &mut List<u8>) -> Result<(), Memory>
    ensures ok { OnOk result (out.new ≡ written out.old (spec.item item.now)) }
    ensures err { OnErr result (Extends out.old out.new) }
{
    match item {
        Item::Assert { expr, .. } => put_assert(expr, out),
        Item::Equation { left, expr, .. } => {
            put_names(left.as_slice(), INDENT, out)?;
            put_value(expr, out)
        }
    }
}

fn put_assert(expr: &Expr, out: &mut List<u8>) -> Result<(), Memory>
    ensures ok { OnOk result (out.new ≡ written out.old (asserted expr.now)) }
    ensures err { OnErr result (Extends out.old out.new) }
{
    put_word(out, INDENT, Keyword::Assert)?;
    put_expr(expr, out)?;
    put_sign(out, JOINED, Symbol::Semicolon)
}
