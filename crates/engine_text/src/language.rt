// The language's own operations, and a program's end, on any engine.

/// What every program has behind the calls of its engine.
pub const LANGUAGE: &str = r#"# The language.


class Trap(Exception):
    """A trap ends the function that meets it, and whoever called that plainly."""


class Trapped:
    """What a task comes to that ended with a trap."""

    def __init__(self, name):
        self.name = name


class Reference:
    """A reference. The engine does not look into it, so it is passed on as it is."""

    def __init__(self, future):
        self.future = future


def fit(number):
    if -(2**63) <= number < 2**63:
        return number
    raise Trap("Overflow")


def neg(a):
    return fit(-a)


def add(a, b):
    return fit(a + b)


def sub(a, b):
    return fit(a - b)


def mul(a, b):
    return fit(a * b)


def div(a, b):
    """The quotient, rounded to zero."""
    if b == 0:
        raise Trap("DivZero")
    quotient = abs(a) // abs(b)
    return fit(quotient if (a < 0) == (b < 0) else -quotient)


def rem(a, b):
    """The remainder, with the sign of the dividend."""
    return a - div(a, b) * b


def equal(a, b):
    return int(a == b)


def differ(a, b):
    return int(a != b)


def less(a, b):
    return int(a < b)


def at_most(a, b):
    return int(a <= b)


def item(items, index):
    if 0 <= index < len(items):
        return items[index]
    raise Trap("Index")


def push(items, last):
    if len(items) >= 4096:
        raise Trap("TooLong")
    return [*items, last]


def turns(first, end):
    """The turns of a loop."""
    if end - first > 10000:
        raise Trap("Loop")
    return range(first, end)


def call(function, depth, *arguments):
    """A plain call."""
    if depth >= 32:
        raise Trap("TooDeep")
    return function(depth + 1, *arguments)


SCRIPT = {}


def script(function):
    """A task finds its function by its name."""
    SCRIPT[function.__name__] = function
    return function


def outcome(name, depth, *arguments):
    """What a remote call comes to: its results or its trap, which is the first one among its arguments if there is one."""
    try:
        if depth >= 32:
            raise Trap("TooDeep")
        for argument in arguments:
            if isinstance(argument, Trapped):
                return argument
        return SCRIPT[name](depth + 1, *arguments)
    except Trap as trap:
        return Trapped(trap.args[0])


@as_task
def task(name, depth, *arguments):
    """A remote call, where it runs."""
    return outcome(name, depth, *arguments)


@as_task
def task_of_several(others, name, depth, *arguments):
    """A remote call of several results, where it runs. Its trap is what each of them comes to."""
    end = outcome(name, depth, *arguments)
    return (end,) * (1 + others) if isinstance(end, Trapped) else end


def remote(retries, function, depth, *arguments):
    """A remote call: a reference at once."""
    return Reference(submit(task, retries, [function.__name__, depth, *arguments]))


def remote_all(others, retries, function, depth, *arguments):
    """A remote call of so many results beside the first: a reference for each at once."""
    given = [others, function.__name__, depth, *arguments]
    return [Reference(future) for future in submit_for_several(task_of_several, 1 + others, retries, given)]


def marked(reference):
    """An argument that the engine dereferences before the task."""
    return reference.future


def put(value):
    return Reference(store(value))


def get(reference):
    """The value of a reference. Its trap reaches whoever gets it."""
    outcome = wait_for(reference.future)
    if isinstance(outcome, Trapped):
        raise Trap(outcome.name)
    return outcome


def show(value):
    print("print", value, flush=True)


def main():
    """Runs the script's main."""
    global TIMEOUT
    words = argparse.ArgumentParser(description="Runs a script of tasks.")
    words.add_argument("--scheduler", metavar="ADDRESS", help="of a running engine (one is started if left out)")
    words.add_argument("--workers", metavar="N", type=int, default=4, help="processes of an engine that is started")
    words.add_argument("--timeout", metavar="SECONDS", type=float, help="how long a get waits (no limit if left out)")
    options = words.parse_args()
    TIMEOUT = options.timeout
    engine = None
    try:
        engine = start_engine(options)
        print("main value", fn_main(0), flush=True)
        status = 0
    except Trap as trap:
        print("main trap", trap.args[0], flush=True)
        status = 1
    except Exception as error:
        print(f"{type(error).__name__}: {error}", file=sys.stderr)
        status = 2
    with suppress(Exception):
        stop_engine(engine)
    return status


# The script.
"#;

/// How every program ends.
pub const FOOT: &str = r#"

if __name__ == "__main__":
    sys.exit(main())
"#;
