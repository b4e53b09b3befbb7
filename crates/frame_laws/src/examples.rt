// Worked examples, computed from the definitions.

ghost use Rattle.std.specs.Prelude.{◌≡◌, ◌+◌, ◌++◌, [], ◌∷◌, pos};
ghost use Rattle.meaning.specs.Values.{Int, Trapped, Aborted, DivZero, Loop, Broken};
ghost use Rattle.meaning.specs.Examples.{square, squaring, loop, deep, value, parts_called, mixed_called};
ghost use Rattle.frame_laws.specs.Machine.{Over, Asks, Bore, Shows, act, resume};
ghost use Rattle.frame_laws.specs.Law.{code_of};
ghost use Rattle.frame_laws.specs.Examples.{
  seen,
  main_state,
  sq_code,
  main_code,
  plain,
  dereferenced,
  squaring_state,
  reference,
  at_the_get,
  third,
  MainHas,
  SquaringHas,
  trap_before_sum,
  trap_behind_sum,
  gives,
  parts_code,
  parts_called_code,
  two_code,
  mixed_code,
  mixed_called_code,
  one_of_two,
};

/// The code of a script of two functions, and where a plain call of each begins.
pub fn code_examples()
    ensures instructions { (code_of square).instructions ≡ sq_code ++ main_code }
    ensures entries { (code_of square).entries ≡ 2 ∷ 5 ∷ [] }
{}

/// What is seen of the machine: ends, births, gets and prints, until it is given nothing more.
pub fn run_examples()
    ensures square_of_seven { seen (code_of square) 31 9 (squaring_state (plain (Int (pos 7)))) [] ≡ gives 49 ∷ [] }
    ensures marked_argument { seen (code_of square) 31 9 (squaring_state (dereferenced reference)) (Int (pos 7) ∷ []) ≡
        Asks reference 0 ∷ gives 49 ∷ [] }
    ensures plain_and_remote { seen (code_of (deep 2)) 32 40 (main_state (deep 2)) (reference ∷ Int (pos 0) ∷ []) ≡
        Bore third 2 ∷ Asks reference 2 ∷ gives 2 ∷ [] }
    ensures loop_of_three { seen (code_of (loop 3)) 32 20 (main_state (loop 3)) [] ≡ gives 3 ∷ [] }
    ensures loop_too_long { seen (code_of (loop 10001)) 32 9 (main_state (loop 10001)) [] ≡ Over (Aborted Loop) ∷ [] }
{}

/// An attempt stops at a get, and goes on from the state that was kept as if it hadn't stopped.
pub fn frame_examples()
    ensures stops { seen (code_of square) 32 9 (main_state square) (reference ∷ []) ≡ Bore squaring 0 ∷ Asks reference 1 ∷ [] }
    ensures kept { act (code_of square) 32 at_the_get ≡ Asks reference 1 }
    ensures goes_on { seen (code_of square) 32 9 (resume at_the_get 1 (Int (pos 49))) [] ≡ Shows (Int (pos 49)) ∷ gives 0 ∷ [] }
    ensures without_a_stop { seen (code_of square) 32 9 (main_state square) (reference ∷ Int (pos 49) ∷ []) ≡
        Bore squaring 0 ∷ Asks reference 1 ∷ Shows (Int (pos 49)) ∷ gives 0 ∷ [] }
{}

/// Plain calls of functions of several results: their code, what is seen of the machine, and the steps.
pub fn several_examples()
    ensures instructions { (code_of (parts_called 17 5)).instructions ≡ parts_code ++ parts_called_code }
    ensures called { seen (code_of (parts_called 17 5)) 32 20 (main_state (parts_called 17 5)) [] ≡ gives 32 ∷ [] }
    ensures one_within_another { (code_of (mixed_called 4)).instructions ≡ two_code ++ (mixed_code ++ mixed_called_code) }
    ensures four_results { seen (code_of (mixed_called 4)) 32 30 (main_state (mixed_called 4)) [] ≡ Shows (Int (pos 8)) ∷ gives 9 ∷ [] }
    ensures another_number { seen (code_of one_of_two) 32 20 (main_state one_of_two) [] ≡ Over (Aborted Broken) ∷ [] }
    // let q, r = parts(17, 5): 4, return a / b, a % b: 7, return q * 10 + r: 6
    ensures steps { MainHas (parts_called 17 5) [] (4 + 7 + 6) }
    // let a, b, c, d = mixed(4): 3, let a, l = two(n): 3, return n + 1, [n, n]: 7, return a, n * 2, 1, l: 7, print b: 2, return a + d[c]: 6
    ensures steps_of_four { MainHas (mixed_called 4) [] (3 + 3 + 7 + 7 + 2 + 6) }
{}

/// How many steps an attempt began since its last answer, where it stops. Each sum is that of the statements, as they begin.
pub fn step_examples()
    // let r = remote sq(7): 3, and print get r, up to the get: 3
    ensures up_to_the_get { MainHas square [] (3 + 3) }
    // return 0
    ensures behind_the_get { MainHas square (value 49 ∷ []) 2 }
    // none behind the get of a trap
    ensures trap_got { MainHas square (Trapped DivZero ∷ []) 0 }
    // return x * x
    ensures square_of_seven { SquaringHas (plain (Int (pos 7))) [] 4 }
    // to dereference the argument is none
    ensures argument_needed { SquaringHas (dereferenced reference) [] 0 }
    ensures argument_got { SquaringHas (dereferenced reference) (value 7 ∷ []) 4 }
    // return (1 / 0) + (2 + 3), up to the trap, and return (2 + 3) + (1 / 0)
    ensures trap_on_the_left { MainHas trap_before_sum [] 5 }
    ensures trap_on_the_right { MainHas trap_behind_sum [] 8 }
    // let s = 0, for i in 0 .. 3, three times set s = s + 1, return s
    ensures loop_of_three { MainHas (loop 3) [] (2 + 3 + 4 + 4 + 4 + 2) }
    ensures loop_too_long { MainHas (loop 10001) [] (2 + 3) }
    // return f(0); if n == 0, return 0
    ensures call { MainHas (deep 0) [] (3 + 4 + 2) }
    // return f(1); if n == 0, if n % 2 == 0, return 1 + get remote f(n - 1), up to the get
    ensures call_that_waits { MainHas (deep 1) [] (3 + 4 + 6 + 8) }
    // the sum is begun already
    ensures call_goes_on { MainHas (deep 1) (value 0 ∷ []) 0 }
{}
