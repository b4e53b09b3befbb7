// Checked trees: what no text shows.

use script_check::{
    CheckError, Checked, CheckedExpr, CheckedStatement, Program, Span, ValueType, check,
};
use script_syntax::{Block, Expr, ExprKind, Function, Name, Statement, parse};
use std::alloc::{AllocError, Global};
use std::process::Abort;
use std::test::Fail;

/// That main's `if` has an empty second block, and that its task has 3 new runs and a marked argument.
fn assert_filled_in(rt: &impl Abort, script: &Checked) {
    let functions = script.functions();
    assert_eq!(rt; functions.len(), 2);
    assert_eq!(rt; functions[1].name.as_str(), "main");
    let statements = &functions[1].body.statements;
    assert_eq!(rt; statements.len(), 3);
    let CheckedStatement::If(_, first, second) = &statements[1] else {
        panic!(rt; "no if");
    };
    assert_eq!(rt; first.statements.len(), 1);
    assert_eq!(rt; second.statements.len(), 0);
    let CheckedStatement::Return(values) = &statements[2] else {
        panic!(rt; "no return");
    };
    assert_eq!(rt; values.len(), 1);
    let CheckedExpr::Get(ValueType::Int, task) = &values[0] else {
        panic!(rt; "no get");
    };
    let CheckedExpr::Remote(retries, function, marks, arguments) = &**task else {
        panic!(rt; "no task");
    };
    assert_eq!(rt; *retries, 3);
    assert_eq!(rt; function.as_str(), "f");
    assert_eq!(rt; marks.as_slice(), [true, false].as_slice());
    assert_eq!(rt; arguments.len(), 2);
}

#[test]
fn gives_the_checked_script_and_its_copy(rt: HostRuntime) -> Result<(), Fail> {
    let text =
        "fn f(x: int, y: int) -> int { return x - y; } fn main() -> int { let r = put 1; if 0 { return 5; } return get remote f(r, 2); }";
    let script = check(rt.alloc(), parse(rt.alloc(), text.as_bytes())?)?;
    assert_filled_in(&rt, &script);
    assert_filled_in(&rt, &script.copy(rt.alloc())?);
    Ok(())
}

/// That a function has two results, which main binds to two names.
fn assert_several(rt: &impl Abort, script: &Checked) {
    let functions = script.functions();
    assert_eq!(rt; functions.len(), 2);
    let [ValueType::List(_)] = functions[0].others.as_slice() else {
        panic!(rt; "no second result");
    };
    let CheckedStatement::Return(values) = &functions[0].body.statements[0] else {
        panic!(rt; "no return");
    };
    assert_eq!(rt; values.len(), 2);
    let statement = &functions[1].body.statements[0];
    let CheckedStatement::LetCall(name, others, function, arguments) = statement else {
        panic!(rt; "no let");
    };
    assert_eq!(rt; name.as_str(), "a");
    assert_eq!(rt; others.len(), 1);
    assert_eq!(rt; others[0].as_str(), "b");
    assert_eq!(rt; function.as_str(), "p");
    assert_eq!(rt; arguments.len(), 1);
}

#[test]
fn gives_several_results_and_their_copy(rt: HostRuntime) -> Result<(), Fail> {
    let text =
        "fn p(x: int) -> (int, [int]) { return x, [x]; } fn main() -> int { let a, b = p(1); return b[0]; }";
    let script = check(rt.alloc(), parse(rt.alloc(), text.as_bytes())?)?;
    assert_several(&rt, &script);
    assert_several(&rt, &script.copy(rt.alloc())?);
    Ok(())
}

/// That main binds two names to references of a task, with 2 new runs and a marked argument.
fn assert_task_of_several(rt: &impl Abort, script: &Checked) {
    let functions = script.functions();
    assert_eq!(rt; functions.len(), 2);
    let statement = &functions[1].body.statements[0];
    let CheckedStatement::LetRemote(name, others, retries, function, marks, arguments) = statement
    else {
        panic!(rt; "no let");
    };
    assert_eq!(rt; name.as_str(), "a");
    assert_eq!(rt; others.len(), 1);
    assert_eq!(rt; others[0].as_str(), "b");
    assert_eq!(rt; *retries, 2);
    assert_eq!(rt; function.as_str(), "p");
    assert_eq!(rt; marks.as_slice(), [true].as_slice());
    assert_eq!(rt; arguments.len(), 1);
}

#[test]
fn gives_a_task_of_several_results_and_its_copy(rt: HostRuntime) -> Result<(), Fail> {
    let text =
        "fn p(x: int) -> (int, [int]) { return x, [x]; } fn main() -> int { let a, b = remote(2) p(put 1); return (get b)[0] + get a; }";
    let script = check(rt.alloc(), parse(rt.alloc(), text.as_bytes())?)?;
    assert_task_of_several(&rt, &script);
    assert_task_of_several(&rt, &script.copy(rt.alloc())?);
    Ok(())
}

#[test]
fn refuses_a_task_of_several_results_at_its_first_fault(rt: HostRuntime) -> Result<(), Fail> {
    let cases = [
        ("let a, a = remote(11) g();", 17),
        ("let a, b = remote(11) g();", 16),
        ("let a, b = remote g();", 10),
        ("let a, b, c = remote p();", 18),
        ("let a, b = remote p();", 12),
        ("let a, b = remote p([1]);", 11),
        ("let a, b = remote p(1); return a;", 11),
    ];
    for (statement, number) in cases {
        let text = format!(in rt.alloc();
            "fn p(x: int) -> (int, int) {{ return x, x; }} fn main() -> int {{ {statement} return 1; }}"
        )?;
        let refused = check(rt.alloc(), parse(rt.alloc(), text.as_bytes())?);
        assert!(rt; matches!(refused, Err(error) if error.number() == number));
    }
    Ok(())
}

/// A script whose main returns an expression.
fn returning(alloc: Global, kind: ExprKind) -> Result<Program, AllocError> {
    let span = Span { start: 26, end: 31 };
    let mut statements = Vec::new(alloc);
    let place = Span { start: 19, end: 25 };
    let others = Vec::new(alloc);
    statements.push(Statement::Return(place, Expr { kind, span }, others))?;
    let text = String::from_str(alloc, "main")?;
    let name = Name {
        text,
        span: Span { start: 3, end: 7 },
    };
    let mut functions = Vec::new(alloc);
    functions.push(Function {
        name,
        parameters: Vec::new(alloc),
        result: ValueType::Int,
        others: Vec::new(alloc),
        body: Block { statements },
    })?;
    Ok(Program { functions })
}

#[test]
fn refuses_trees_that_no_text_has(rt: HostRuntime) -> Result<(), Fail> {
    let cases = [
        ExprKind::Int(9223372036854775808),
        ExprKind::List(Vec::new(rt.alloc())),
    ];
    for kind in cases {
        let span = Span { start: 26, end: 31 };
        let refused = check(rt.alloc(), returning(rt.alloc(), kind)?);
        assert!(rt; matches!(refused, Err(CheckError::WrongType(s)) if s == span));
    }
    let largest = returning(rt.alloc(), ExprKind::Int(9223372036854775807))?;
    assert!(rt; check(rt.alloc(), largest).is_ok());
    Ok(())
}
