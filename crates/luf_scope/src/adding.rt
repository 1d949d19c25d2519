// Occurrences that are added one after another, where no part of the tree has to be entered: all, or those of an outline.
ghost use Rattle.std.specs.Prelude.{◌≡◌, ◌∷◌, [], ◌&&◌, not, map, OnOk};
ghost use Rattle.luf_tree.specs.TokenSyntax.{from_to};
ghost use Rattle.luf_tree.specs.SyntaxOf.{declared_of, first_of_path, rest_of_path, syntax_of_expr, syntax_of_stat};
ghost use Rattle.luf_scope.specs.Occurrences.{is_void, declared_locals, loop_variables_of, parameters_of, path_of, method_of};
ghost use Rattle.luf_scope.specs.inner.Kept.{is_kept, Adds};
ghost use Rattle.luf_scope.specs.inner.Parts.{plain_variable};

use crate::{Memory, Occurrence};
use luf_tree::{Declared, Expr, ExprKind, Stat, StatKind};

pub fn add(all: bool, one: Occurrence, into: &mut Vec<Occurrence>) -> Result<(), Memory>
    ensures { OnOk result (Adds all into.old.items into.new.items (one ∷ [])) }
{
    if is_kept(all, one) {
        into.push(one)?;
    }
    Ok(())
}

// An outline has no names that are used.
fn is_kept(all: bool, one: Occurrence) -> bool
    ensures { result ≡ is_kept all one }
{
    match one {
        Occurrence::Reads(_) | Occurrence::Assigns(_) | Occurrence::Field(_) => all,
        _ => true,
    }
}

// The names of a `local`, which are active from its end.
pub fn add_locals(
    all: bool,
    from: u32,
    to: u32,
    names: &[Declared],
    into: &mut Vec<Occurrence>,
) -> Result<(), Memory>
    ensures { OnOk result (Adds all into.old.items into.new.items (declared_locals from to (map declared_of names.now))) }
{
    for d in names {
        let one = Occurrence::Local {
            name: d.name,
            attribute: d.attribute,
            from,
            to,
        };
        add(all, one, into)?;
    }
    Ok(())
}

// The variables of a `for`, which are active in its block.
pub fn add_loop_variables(
    all: bool,
    from: u32,
    to: u32,
    names: &[u32],
    into: &mut Vec<Occurrence>,
) -> Result<(), Memory>
    ensures { OnOk result (Adds all into.old.items into.new.items (loop_variables_of (from_to from to) names.now)) }
{
    for name in names {
        let name = *name;
        add(all, Occurrence::LoopVariable { name, from, to }, into)?;
    }
    Ok(())
}

// The parameters of a function, which are active in its block.
pub fn add_parameters(
    all: bool,
    from: u32,
    to: u32,
    names: &[u32],
    into: &mut Vec<Occurrence>,
) -> Result<(), Memory>
    ensures { OnOk result (Adds all into.old.items into.new.items (parameters_of (from_to from to) names.now)) }
{
    for name in names {
        let name = *name;
        add(all, Occurrence::Parameter { name, from, to }, into)?;
    }
    Ok(())
}

fn add_fields(all: bool, names: &[u32], into: &mut Vec<Occurrence>) -> Result<(), Memory>
    ensures { OnOk result (Adds all into.old.items into.new.items (map Occurrence.Field names.now)) }
{
    for name in names {
        add(all, Occurrence::Field(*name), into)?;
    }
    Ok(())
}

// What `function` and its name say: the variable that is assigned, or read for its fields.
pub fn add_path(
    all: bool,
    path: &[u32],
    method: Option<u32>,
    into: &mut Vec<Occurrence>,
) -> Result<(), Memory>
    ensures { OnOk result (Adds all into.old.items into.new.items (path_of (first_of_path path.now) (rest_of_path path.now) method)) }
{
    match (path, method) {
        ([], _) => Ok(()),
        ([name], None) => add(all, Occurrence::Assigns(*name), into),
        ([name, fields @ ..], _) => {
            add(all, Occurrence::Reads(*name), into)?;
            add_fields(all, fields, into)
        }
    }
}

// The parameter `self` of a method, and the method's name.
pub fn add_method(
    all: bool,
    from: u32,
    to: u32,
    method: Option<u32>,
    into: &mut Vec<Occurrence>,
) -> Result<(), Memory>
    ensures { OnOk result (Adds all into.old.items into.new.items (method_of (from_to from to) method)) }
{
    match method {
        None => Ok(()),
        Some(name) => {
            let colon = name.saturating_sub(1);
            add(all, Occurrence::ImplicitSelf { colon, from, to }, into)?;
            add(all, Occurrence::Field(name), into)
        }
    }
}

// Whether a statement is a label or a `;`.
pub fn is_void_statement(s: &Stat) -> bool
    ensures { result ≡ is_void (syntax_of_stat s.now) }
{
    match &s.what {
        StatKind::Empty | StatKind::Label(_) => true,
        StatKind::Local { .. }
        | StatKind::Assign { .. }
        | StatKind::Call(_)
        | StatKind::Do(_)
        | StatKind::While { .. }
        | StatKind::Repeat { .. }
        | StatKind::If { .. }
        | StatKind::For { .. }
        | StatKind::ForIn { .. }
        | StatKind::Function { .. }
        | StatKind::LocalFunction { .. }
        | StatKind::Goto(_)
        | StatKind::Break
        | StatKind::Return(_) => false,
    }
}

// The name of a variable by itself.
pub fn plain_variable(e: &Expr) -> Option<u32>
    ensures { result ≡ plain_variable (syntax_of_expr e.now) }
{
    match &e.what {
        ExprKind::Name => Some(e.from),
        ExprKind::Nil
        | ExprKind::True
        | ExprKind::False
        | ExprKind::Number
        | ExprKind::Str
        | ExprKind::Vararg
        | ExprKind::Paren(_)
        | ExprKind::Function(_)
        | ExprKind::Table(_)
        | ExprKind::Unary(_)
        | ExprKind::Chain { .. }
        | ExprKind::Power { .. }
        | ExprKind::NameSuffixed(_)
        | ExprKind::Suffixed { .. } => None,
    }
}

// Whether a label counts as outside the local variables of its block: it is at its end, which is not `until`.
pub fn is_at_end(until: bool, ended: bool) -> bool
    ensures { result ≡ (not until && ended) }
{
    !until && ended
}
