// How rows write the tree of an expression. What an operator, a field or an index makes one stands in braces, which no
// expression has.

use cm_base::Name;
use cm_tree::{Base, Binary, Expr, Unary};
use std::alloc::AllocError;

/// The sign of an operator of numbers.
fn number_sign(op: Binary) -> &'static str {
    match op {
        Binary::ShiftLeft => "<<",
        Binary::ShiftRight => ">>",
        Binary::ShiftRightZero => ">>>",
        Binary::Add => "+",
        Binary::Subtract => "-",
        Binary::Multiply => "*",
        Binary::Divide => "/",
        Binary::Remainder => "%",
        _ => "no sign",
    }
}

/// The sign of an operator between two operands.
fn binary_sign(op: Binary) -> &'static str {
    match op {
        Binary::Or => "||",
        Binary::And => "&&",
        Binary::BitOr => "|",
        Binary::BitXor => "^",
        Binary::BitAnd => "&",
        Binary::Equal => "==",
        Binary::NotEqual => "!=",
        Binary::Less => "<",
        Binary::LessEqual => "<=",
        Binary::Greater => ">",
        Binary::GreaterEqual => ">=",
        _ => number_sign(op),
    }
}

/// The sign of an operator before its operand.
fn unary_sign(op: Unary) -> &'static str {
    match op {
        Unary::Minus => "-",
        Unary::Not => "!",
        Unary::Complement => "~",
    }
}

/// Appends a path.
fn push_path(line: &mut String, names: &[Name]) -> Result<(), AllocError> {
    let mut is_first = true;
    for name in names {
        if !is_first {
            line.push_str("::")?;
        }
        is_first = false;
        line.push_str(name.as_str())?;
    }
    Ok(())
}

/// Appends a base type.
#[cycle(written)]
fn push_base(line: &mut String, base: &Base) -> Result<(), AllocError> {
    match base {
        Base::Bool(_) => line.push_str("bool"),
        Base::Int(_) => line.push_str("int"),
        Base::Int32(_) => line.push_str("int32"),
        Base::Int64(_) => line.push_str("int64"),
        Base::Wrap(_, count) => {
            line.push_str("wrap<")?;
            push_expr(line, count.get())?;
            line.push('>')
        }
        Base::Clamp(_, count) => {
            line.push_str("clamp<")?;
            push_expr(line, count.get())?;
            line.push('>')
        }
    }
}

/// Appends sizes in brackets.
#[cycle(written)]
fn push_sizes(line: &mut String, sizes: &[Expr]) -> Result<(), AllocError> {
    for size in sizes {
        line.push('[')?;
        push_expr(line, size)?;
        line.push(']')?;
    }
    Ok(())
}

/// Appends values in parentheses.
#[cycle(written)]
fn push_values(line: &mut String, values: &[Expr]) -> Result<(), AllocError> {
    line.push('(')?;
    let mut is_first = true;
    for value in values {
        if !is_first {
            line.push_str(", ")?;
        }
        is_first = false;
        push_expr(line, value)?;
    }
    line.push(')')
}

/// Appends an expression. It goes down no further than the height of the tree.
#[cycle(written)]
pub fn push_expr(line: &mut String, expr: &Expr) -> Result<(), AllocError> {
    match expr {
        Expr::Number(_, value, wide) => {
            let suffix = if *wide { "L" } else { "" };
            write!(line, "{value}{suffix}")
        }
        Expr::Truth(_, truth) => write!(line, "{truth}"),
        Expr::Name(path) => push_path(line, path.names.as_slice()),
        Expr::Call(path, values) => {
            push_path(line, path.names.as_slice())?;
            push_values(line, values.as_slice())
        }
        Expr::Construct(base, sizes, values) => {
            push_base(line, base)?;
            push_sizes(line, sizes.as_slice())?;
            push_values(line, values.as_slice())
        }
        Expr::Paren(_, inner) => {
            line.push('(')?;
            push_expr(line, inner.get())?;
            line.push(')')
        }
        Expr::Field(_, inner, word) => {
            line.push('{')?;
            push_expr(line, inner.get())?;
            line.push('.')?;
            line.push_str(word.text.as_str())?;
            line.push('}')
        }
        Expr::Index(_, inner, index) => {
            line.push('{')?;
            push_expr(line, inner.get())?;
            line.push('[')?;
            push_expr(line, index.get())?;
            line.push_str("]}")
        }
        Expr::Unary(_, op, inner) => {
            line.push('{')?;
            line.push_str(unary_sign(*op))?;
            push_expr(line, inner.get())?;
            line.push('}')
        }
        Expr::Binary(_, op, left, right) => {
            line.push('{')?;
            push_expr(line, left.get())?;
            let sign = binary_sign(*op);
            write!(line, " {sign} ")?;
            push_expr(line, right.get())?;
            line.push('}')
        }
        Expr::Choice(_, test, left, right) => {
            line.push('{')?;
            push_expr(line, test.get())?;
            line.push_str(" ? ")?;
            push_expr(line, left.get())?;
            line.push_str(" : ")?;
            push_expr(line, right.get())?;
            line.push('}')
        }
    }
}
