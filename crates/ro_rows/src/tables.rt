//! Rows of tables: instructions, checks of files, names, limits, errors, traps and the registers of new threads.
ghost use Rattle.std.specs.Prelude.{◌≡◌, ◌-◌, ◌^◌, true, false, [], ◌∷◌, ◌++◌, length, map, Some, None, Ok, Err, replicate};
ghost use Rattle.ro_decode.specs.Table.{instruction_of, word_of};
ghost use Rattle.ro_event.specs.declared.calls.Which.TheVariants.{System, Function};
ghost use Rattle.ro_event.specs.declared.functions.Function.TheVariants.{Create, Join, Exit, ThreadSelf, MutexInit, MutexDestroy, Lock, TryLock, Unlock, ConditionInit, ConditionDestroy, Wait, Signal, Broadcast};
ghost use Rattle.ro_event.specs.declared.stops.Stop.TheVariants.{Trap};
ghost use Rattle.ro_event.specs.Traps.{number_of, causes};
ghost use Rattle.ro_event.specs.Functions.{names};
ghost use Rattle.ro_event.specs.Table.{call_at};
ghost use Rattle.ro_region.specs.declared.Kind.TheVariants.{Read, Write, Execute};
ghost use Rattle.ro_region.specs.Permission.{permits_of};
ghost use Rattle.ro_exec.specs.Next.{Stands};
ghost use Rattle.ro_exec.specs.Threads.{first_cpu, made_cpu};
ghost use Rattle.ro_journal.specs.declared.How.TheVariants.{Exit as ExitHow};
ghost use Rattle.ro_kernel.specs.declared.Life.TheVariants.{Live};
ghost use Rattle.ro_sym.specs.Calls.{table_with};
ghost use Rattle.ro_sym.specs.Symbols.{symbol_in};
ghost use Rattle.ro_image.specs.Executable.{bad_code};
ghost use Rattle.ro_settings.specs.Ranges.{default_settings};
ghost use Rattle.ro_simulation.specs.Guests.{exit_guest};
ghost use Rattle.ro_rows.specs.Exit.{exit_file};
ghost use Rattle.ro_rows.specs.Tables.{instructions, assembled, results, updates, changed, header, two_headers, strings, function, standing_symbols, address_named, four, kernel_with, two_held, unheld, answer, answer_in, mmap, brk, system, kernel_behind, served_of, answers_of, ranges_behind, two_mapped, end_of, function_call, on_words, number_of_thread, next_of};

/// A row: the words of the 59 instructions are those of an assembler, and give the instructions back.
pub fn instructions_row()
    ensures count { length instructions ≡ 59 }
    ensures words { map word_of instructions ≡ assembled }
    ensures back { map instruction_of assembled ≡ map Some instructions }
{}

/// A row: the high halves of products, and quotients and remainders by 0, by -1 and of negative numbers; and what atomic
/// instructions make of a word, at the least and the greatest numbers, signed and unsigned.
pub fn results_row()
    ensures values { results ≡ 0x00000000 ∷ 0xFFFFFFFE ∷ 0xFFFFFFFB ∷ 0x00000006 ∷ 0x3FFFFFFF ∷ 0xC0000000 ∷ 0xFFFFFFFD ∷ 0xFFFFFFFF ∷ 0xFFFFFFFD ∷ 0x00000001 ∷ 0x7FFFFFFC ∷ 0x00000001 ∷ 0xFFFFFFFF ∷ 0xFFFFFFFF ∷ 0x00000007 ∷ 0x00000007 ∷ 0x80000000 ∷ 0x00000000 ∷ [] }
    ensures atomic { updates ≡ 0x00000009 ∷ 0x00000009 ∷ 0x00000001 ∷ 0x0F0F0F0F ∷ 0x30303030 ∷ 0xFCFCFCFC ∷ 0x80000000 ∷ 0x80000000 ∷ 0x7FFFFFFF ∷ 0x7FFFFFFF ∷ 0x7FFFFFFF ∷ 0x7FFFFFFF ∷ 0x80000000 ∷ 0x80000000 ∷ [] }
{}

/// A row: of two checks that a file fails the first one names the code, for each pair of neighbours. The flags RVC, RVE and
/// of the float ABI are refused, and no others.
pub fn checks_row()
    ensures headers { map bad_code ((0 ∷ []) ∷ changed exit_file ((0, 0x7E) ∷ (4, 2) ∷ []) ∷ changed exit_file ((4, 2) ∷ (5, 2) ∷ []) ∷ changed exit_file ((5, 2) ∷ (6, 0) ∷ []) ∷ changed exit_file ((20, 2) ∷ (16, 3) ∷ []) ∷ changed exit_file ((16, 3) ∷ (18, 0xF2) ∷ []) ∷ changed exit_file ((18, 0xF2) ∷ (36, 1) ∷ []) ∷ changed exit_file ((36, 1) ∷ (44, 0) ∷ []) ∷ changed exit_file ((42, 31) ∷ (28, 0x41) ∷ []) ∷ changed exit_file ((44, 2) ∷ (52, 2) ∷ []) ∷ []) ≡ Some 1 ∷ Some 2 ∷ Some 3 ∷ Some 4 ∷ Some 5 ∷ Some 6 ∷ Some 7 ∷ Some 8 ∷ Some 9 ∷ Some 10 ∷ [] }
    ensures segments { map bad_code (two_headers (header 1 0 0x10000 97 96 5) (header 2 0 0 0 0 0) ∷ two_headers (header 1 0 0x1000 96 96 5) (header 1 0 0x20000 97 96 5) ∷ two_headers (header 1 0 0x1000 96 96 5) (header 1 0 0x20000 96 96 5) ∷ two_headers (header 1 0 0x20000 96 96 5) (header 1 0 0x30000 0 0x400001 6) ∷ changed exit_file ((32, 1) ∷ (48, 1) ∷ (72, 1) ∷ (74, 0x40) ∷ []) ∷ changed exit_file ((32, 1) ∷ (48, 1) ∷ []) ∷ []) ≡ Some 11 ∷ Some 12 ∷ Some 13 ∷ Some 14 ∷ Some 15 ∷ Some 16 ∷ [] }
    ensures flags { map bad_code (changed exit_file ((36, 1) ∷ []) ∷ changed exit_file ((36, 2) ∷ []) ∷ changed exit_file ((36, 4) ∷ []) ∷ changed exit_file ((36, 8) ∷ []) ∷ changed exit_file ((36, 0xF0) ∷ []) ∷ []) ≡ Some 8 ∷ Some 8 ∷ Some 8 ∷ Some 8 ∷ None ∷ [] }
    ensures sizes { map bad_code (changed exit_file ((72, 0) ∷ (74, 0x40) ∷ []) ∷ changed exit_file ((72, 1) ∷ (74, 0x40) ∷ []) ∷ two_headers (header 1 0 0x10000 96 96 5) (header 1 0 0x20000 0 0x3FFFA0 6) ∷ two_headers (header 1 0 0x10000 96 96 5) (header 1 0 0x20000 0 0x3FFFA1 6) ∷ []) ≡ None ∷ Some 15 ∷ None ∷ Some 15 ∷ [] }
    ensures symbols { map (λ symbols. table_with strings (map symbol_in symbols)) ((function 0 0x10000 ∷ function 15 0x10000 ∷ function 257 0x10004 ∷ []) ∷ (function 0 0x10000 ∷ function 15 0x10000 ∷ []) ∷ (function 0 0x10000 ∷ function 0 0x10004 ∷ []) ∷ []) ≡ Err 16 ∷ Err 17 ∷ Err 17 ∷ [] }
{}

/// A row: each function of POSIX threads stands where the symbol with its name says.
pub fn names_row()
    ensures table { table_with strings (map symbol_in standing_symbols) ≡ Ok (record { addresses = map address_named names }) }
    ensures calls { map (call_at (record { addresses = Some 0x10000 ∷ Some 0x10008 ∷ Some 0x10004 ∷ Some 0x10020 ∷ Some 0x10010 ∷ Some 0x1000C ∷ Some 0x10014 ∷ Some 0x10018 ∷ Some 0x1001C ∷ Some 0x10024 ∷ Some 0x10028 ∷ Some 0x1002C ∷ Some 0x10030 ∷ Some 0x10034 ∷ [] })) (0x10000 ∷ 0x10004 ∷ 0x10008 ∷ 0x1000C ∷ 0x10010 ∷ 0x10014 ∷ 0x10018 ∷ 0x1001C ∷ 0x10020 ∷ 0x10024 ∷ 0x10028 ∷ 0x1002C ∷ 0x10030 ∷ 0x10034 ∷ 0x10038 ∷ []) ≡ Some (Function Create) ∷ Some (Function Exit) ∷ Some (Function Join) ∷ Some (Function MutexDestroy) ∷ Some (Function MutexInit) ∷ Some (Function Lock) ∷ Some (Function TryLock) ∷ Some (Function Unlock) ∷ Some (Function ThreadSelf) ∷ Some (Function ConditionInit) ∷ Some (Function ConditionDestroy) ∷ Some (Function Wait) ∷ Some (Function Signal) ∷ Some (Function Broadcast) ∷ None ∷ [] }
{}

/// A row: the settings that hold where none are given.
pub fn settings_row()
    ensures replicas { default_settings.replicas ≡ 3 }
    ensures drivers { default_settings.drivers ≡ 3 }
    ensures watchdog { default_settings.watchdog ≡ 10000 }
    ensures quantum { default_settings.quantum ≡ 4096 }
    ensures limit { default_settings.limit ≡ 1000000000 }
{}

/// A row: the errors of calls, by their numbers: EPERM 1, ESRCH 3, EBADF 9, EAGAIN 11, EFAULT 14, EBUSY 16, EINVAL 22,
/// EDEADLK 35, ENOSYS 38. A system call answers them as negative numbers.
pub fn errors_row()
    ensures system { answer (kernel_with four []) (System 63) 1 0x100E0 1 ∷ answer (kernel_with four []) (System 64) 0 0x100E0 1 ∷ answer (kernel_with four []) (System 63) 0 0 1 ∷ answer (kernel_with four []) (System 64) 2 0 1 ∷ answer (kernel_with four []) (System 57) 0 0 0 ∷ [] ≡ Some (2 ^ 32 - 9) ∷ Some (2 ^ 32 - 9) ∷ Some (2 ^ 32 - 14) ∷ Some (2 ^ 32 - 14) ∷ Some (2 ^ 32 - 38) ∷ [] }
    ensures create { answer (kernel_with four []) (Function Create) 0x100E0 1 0x10098 ∷ answer (kernel_with four []) (Function Create) 0x100E0 0 0x10099 ∷ answer (kernel_with four []) (Function Create) 0 0 0x10098 ∷ answer (kernel_with (replicate 16 Live) []) (Function Create) 0x100E0 0 0x10098 ∷ answer (kernel_with (replicate 15 Live) []) (Function Create) 0x100E0 0 0x10098 ∷ [] ≡ Some 22 ∷ Some 22 ∷ Some 14 ∷ Some 11 ∷ Some 0 ∷ [] }
    ensures join { answer (kernel_with four []) (Function Join) 4 0 0 ∷ answer (kernel_with four []) (Function Join) 0 0 0 ∷ answer (kernel_with four []) (Function Join) 3 0 0 ∷ answer (kernel_with four []) (Function Join) 2 2 0 ∷ answer (kernel_with four []) (Function Join) 1 0 0 ∷ answer (kernel_with four []) (Function Join) 2 0 0 ∷ [] ≡ Some 3 ∷ Some 35 ∷ Some 3 ∷ Some 14 ∷ None ∷ Some 0 ∷ [] }
    ensures mutex { answer (kernel_with four two_held) (Function Lock) 0 0 0 ∷ answer (kernel_with four two_held) (Function Lock) 0x100E4 0 0 ∷ answer (kernel_with four two_held) (Function Lock) 0x100E0 0 0 ∷ answer (kernel_with four two_held) (Function TryLock) 0x100E0 0 0 ∷ answer (kernel_with four two_held) (Function TryLock) 0x100E4 0 0 ∷ answer (kernel_with four two_held) (Function Unlock) 0x100E0 0 0 ∷ answer (kernel_with four two_held) (Function Unlock) 0x100E8 0 0 ∷ answer (kernel_with four two_held) (Function Unlock) 0x100E4 0 0 ∷ [] ≡ Some 14 ∷ Some 35 ∷ None ∷ Some 16 ∷ Some 16 ∷ Some 1 ∷ Some 1 ∷ Some 0 ∷ [] }
    ensures init { answer (kernel_with four two_held) (Function MutexInit) 0 0 0 ∷ answer (kernel_with four two_held) (Function MutexInit) 0x100E4 0 0 ∷ answer (kernel_with four two_held) (Function MutexInit) 0x100E0 0 0 ∷ answer (kernel_with four two_held) (Function MutexInit) 0x100E8 0 0 ∷ answer (kernel_with four (unheld 256)) (Function MutexInit) 0 0 0 ∷ answer (kernel_with four (unheld 256)) (Function MutexInit) 0x100E0 0 0 ∷ answer (kernel_with four (unheld 255)) (Function MutexInit) 0x100E0 0 0 ∷ [] ≡ Some 14 ∷ Some 0 ∷ Some 0 ∷ Some 0 ∷ Some 14 ∷ Some 11 ∷ Some 0 ∷ [] }
    ensures condition { answer (kernel_with four two_held) (Function ConditionInit) 0 0 0 ∷ answer (kernel_with four two_held) (Function ConditionDestroy) 0 0 0 ∷ answer (kernel_with four two_held) (Function Wait) 0 0x100E4 0 ∷ answer (kernel_with four two_held) (Function Wait) 0x100E8 0 0 ∷ answer (kernel_with four two_held) (Function Wait) 0x100E8 0x100E0 0 ∷ answer (kernel_with four two_held) (Function Wait) 0x100E8 0x100EC 0 ∷ answer (kernel_with four two_held) (Function Wait) 0x100E8 0x100E4 0 ∷ answer (kernel_with four two_held) (Function Signal) 0 0 0 ∷ answer (kernel_with four two_held) (Function Broadcast) 0 0 0 ∷ answer (kernel_with four two_held) (Function Signal) 0x100E8 0 0 ∷ answer (kernel_with four two_held) (Function Broadcast) 0x100E8 0 0 ∷ [] ≡ Some 14 ∷ Some 14 ∷ Some 14 ∷ Some 14 ∷ Some 1 ∷ Some 1 ∷ None ∷ Some 14 ∷ Some 14 ∷ Some 0 ∷ Some 0 ∷ [] }
    ensures full { answer (kernel_with four (unheld 256)) (Function Lock) 0x100E0 0 0 ∷ answer (kernel_with four (unheld 256)) (Function TryLock) 0x100E0 0 0 ∷ answer (kernel_with four (unheld 255)) (Function Lock) 0x100E0 0 0 ∷ [] ≡ Some 11 ∷ Some 11 ∷ Some 0 ∷ [] }
{}

/// A row: the nine traps, in the order of their numbers: a misaligned pc, a fetch that is not permitted, no instruction, a misaligned target, a
/// misaligned and a forbidden load, a misaligned and a forbidden store, EBREAK.
pub fn traps_row()
    ensures traps { next_of 0 0x10002 ∷ next_of 0 0x70000000 ∷ next_of 0 0x10000 ∷ next_of 0x0020006F 0x10000 ∷ next_of 0x00102283 0x10000 ∷ next_of 0x00002283 0x10000 ∷ next_of 0x00002123 0x10000 ∷ next_of 0x00002023 0x10000 ∷ next_of 0x00100073 0x10000 ∷ [] ≡ map (λ cause. Stands (Trap cause)) causes }
    ensures numbers { map number_of causes ≡ 1 ∷ 2 ∷ 3 ∷ 4 ∷ 5 ∷ 6 ∷ 7 ∷ 8 ∷ 9 ∷ [] }
{}

/// A row: thread 0 begins with its stack, and a thread that is made with its stack, its creator's gp, its number, its argument
/// and a place to return to.
pub fn threads_row()
    ensures first { first_cpu 0x10054 ≡ record { registers = 0 ∷ 0x7000FFF0 ∷ replicate 29 0; pc = 0x10054 } }
    ensures made { made_cpu (record { start = 0x10098; argument = 7; creator = 1 }) (record { registers = 1 ∷ 2 ∷ 0x12345 ∷ replicate 28 9; pc = 0x10060 }) 2 ≡ record { registers = 0x7FFFFFF0 ∷ 0x7004FFF0 ∷ 0x12345 ∷ 2 ∷ replicate 5 0 ++ 7 ∷ replicate 21 0; pc = 0x10098 } }
    ensures stacks { map (λ a. permits_of exit_guest.image.ranges Write a 1) (0x6FFFFFFF ∷ 0x70000000 ∷ 0x7000FFFF ∷ 0x70010000 ∷ 0x701E0000 ∷ 0x701EFFFF ∷ 0x701F0000 ∷ 0x70200000 ∷ []) ≡ false ∷ true ∷ true ∷ false ∷ true ∷ true ∷ false ∷ false ∷ [] }
    ensures heap { map (λ a. permits_of exit_guest.image.ranges Write a 1) (0x10FFF ∷ 0x11000 ∷ 0x110FFF ∷ 0x111000 ∷ []) ≡ false ∷ true ∷ true ∷ false ∷ [] }
    ensures none_executes { permits_of exit_guest.image.ranges Execute 0x11000 4 ∷ permits_of exit_guest.image.ranges Execute 0x70000000 4 ∷ permits_of exit_guest.image.ranges Write 0x10000 4 ∷ [] ≡ false ∷ false ∷ false ∷ [] }
{}

/// A row: memory on demand. Memory that is not private and anonymous, another protection than reading, or reading and writing, and no
/// bytes are EINVAL 22; more than 16 MiB in all are ENOMEM 12. Ranges are given in whole pages, one behind the other from 50000000 on, up to
/// 51000000 and not a byte further. Behind the call its range may be read, and written where that was asked for, but not executed.
pub fn mmap_row()
    ensures errors { map (λ call. answer_in (served_of (kernel_with four []) call)) (mmap 1 3 0x21 ∷ mmap 1 3 0x02 ∷ mmap 1 3 0x32 ∷ mmap 1 0 0x22 ∷ mmap 1 2 0x22 ∷ mmap 1 7 0x22 ∷ mmap 0 3 0x22 ∷ mmap 0x1000001 3 0x22 ∷ mmap 0xFFFFFFFF 3 0x22 ∷ []) ≡ replicate 7 (Some (2 ^ 32 - 22)) ++ replicate 2 (Some (2 ^ 32 - 12)) }
    ensures given { answers_of (kernel_with four []) (mmap 1 3 0x22 ∷ mmap 0x1001 1 0x22 ∷ mmap 0x1000 3 0x22 ∷ mmap 0xFFC001 3 0x22 ∷ mmap 0xFFC000 3 0x22 ∷ mmap 1 3 0x22 ∷ []) ≡ Some 0x50000000 ∷ Some 0x50001000 ∷ Some 0x50003000 ∷ Some (2 ^ 32 - 12) ∷ Some 0x50004000 ∷ Some (2 ^ 32 - 12) ∷ [] }
    ensures all { answers_of (kernel_with four []) (mmap 0x1000000 3 0x22 ∷ mmap 1 3 0x22 ∷ []) ≡ Some 0x50000000 ∷ Some (2 ^ 32 - 12) ∷ [] }
    ensures before { map (λ a. permits_of (ranges_behind []) Read a 1) (0x50000000 ∷ 0x50001000 ∷ []) ≡ false ∷ false ∷ [] }
    ensures reads { map (λ a. permits_of (ranges_behind two_mapped) Read a 1) (0x4FFFFFFF ∷ 0x50000000 ∷ 0x50000FFF ∷ 0x50001000 ∷ 0x50001FFF ∷ 0x50002000 ∷ []) ≡ false ∷ true ∷ true ∷ true ∷ true ∷ false ∷ [] }
    ensures writes { map (λ a. permits_of (ranges_behind two_mapped) Write a 1) (0x4FFFFFFF ∷ 0x50000000 ∷ 0x50000FFF ∷ 0x50001000 ∷ 0x50001FFF ∷ 0x50002000 ∷ []) ≡ false ∷ true ∷ true ∷ false ∷ false ∷ false ∷ [] }
    ensures none_executes { map (λ a. permits_of (ranges_behind two_mapped) Execute a 4) (0x50000000 ∷ 0x50001000 ∷ []) ≡ false ∷ false ∷ [] }
    ensures still { permits_of (ranges_behind two_mapped) Write 0x11000 4 ≡ true }
{}

/// A row: the break moves to any address from the heap's start to its end, both included, and stays where it was for any other.
pub fn brk_row()
    ensures low { answers_of (kernel_with four []) (brk 0 ∷ brk 0x12000 ∷ brk 0x10FFF ∷ brk 0x11000 ∷ brk 0 ∷ []) ≡ Some 0x11000 ∷ Some 0x12000 ∷ Some 0x12000 ∷ Some 0x11000 ∷ Some 0x11000 ∷ [] }
    ensures high { answers_of (kernel_with four []) (brk 0x12001 ∷ brk 0x111001 ∷ brk 0x111000 ∷ brk 0xFFFFFFFF ∷ brk 0 ∷ []) ≡ Some 0x12001 ∷ Some 0x12001 ∷ Some 0x111000 ∷ Some 0x111000 ∷ Some 0x111000 ∷ [] }
{}

/// A row: of a number to exit with the lowest eight bits count, by either of the two calls; no other call of these ends the program.
pub fn ends_row()
    ensures exit { map (λ a0. end_of (served_of (kernel_with four []) (system 93 a0 1 2 3))) (0 ∷ 255 ∷ 256 ∷ 0x1FF ∷ 0x12345 ∷ 0xFFFFFFFF ∷ []) ≡ Some (ExitHow 0) ∷ Some (ExitHow 255) ∷ Some (ExitHow 0) ∷ Some (ExitHow 255) ∷ Some (ExitHow 69) ∷ Some (ExitHow 255) ∷ [] }
    ensures exit_group { map (λ a0. end_of (served_of (kernel_with four []) (system 94 a0 1 2 3))) (0 ∷ 255 ∷ 256 ∷ 0x1FF ∷ 0x12345 ∷ 0xFFFFFFFF ∷ []) ≡ Some (ExitHow 0) ∷ Some (ExitHow 255) ∷ Some (ExitHow 0) ∷ Some (ExitHow 255) ∷ Some (ExitHow 69) ∷ Some (ExitHow 255) ∷ [] }
    ensures others { map (λ number. end_of (served_of (kernel_with four []) (system number 0 0 0 0))) (57 ∷ 63 ∷ 64 ∷ 92 ∷ 95 ∷ 214 ∷ 222 ∷ []) ≡ replicate 7 None }
{}

/// A row: a thread that asks for its number is answered it. To destroy a mutex changes nothing, held or not, known or not. Each call on a mutex
/// or a condition variable is answered EFAULT 14 where that is no aligned word, or one that may not be written.
pub fn words_of_calls_row()
    ensures number { map number_of_thread (0 ∷ 1 ∷ 15 ∷ []) ≡ Some 0 ∷ Some 1 ∷ Some 15 ∷ [] }
    ensures destroy { map (λ a0. answer (kernel_with four two_held) (Function MutexDestroy) a0 0 0) (0x100E0 ∷ 0x100E4 ∷ 0x100E8 ∷ 0 ∷ []) ≡ Some 0 ∷ Some 0 ∷ Some 0 ∷ Some 14 ∷ [] }
    ensures keeps { map (λ a0. (kernel_behind (kernel_with four []) (served_of (kernel_with four two_held) (function_call MutexDestroy a0))).owners) (0x100E0 ∷ 0x100E4 ∷ 0x100E8 ∷ 0 ∷ []) ≡ replicate 4 two_held }
    ensures misaligned { map (λ function. answer (kernel_with four two_held) (Function function) 0x100E5 0x100E4 0) on_words ≡ replicate 10 (Some 14) }
    ensures unwritable { map (λ function. answer (kernel_with four two_held) (Function function) 0x20000000 0x100E4 0) on_words ≡ replicate 10 (Some 14) }
{}
