//! The functions of POSIX threads, and their names.
ghost use Rattle.std.specs.Prelude.{◌≡◌, ◌+◌, ◌<◌, ◌∷◌, drop, length};
ghost use Rattle.ro_event.specs.Functions.{functions, name_of};

/// A function of POSIX threads.
#[derive(Clone, Copy, PartialEq, Eq, Debug)]
pub enum Function {
    Create,
    Join,
    Exit,
    ThreadSelf,
    MutexInit,
    MutexDestroy,
    Lock,
    TryLock,
    Unlock,
    ConditionInit,
    ConditionDestroy,
    Wait,
    Signal,
    Broadcast,
}

/// The functions and their names in a program's symbols, in the order of the enum and of the call table.
const TABLE: &[(Function, &str)] = &[
    (Function::Create, "pthread_create"),
    (Function::Join, "pthread_join"),
    (Function::Exit, "pthread_exit"),
    (Function::ThreadSelf, "pthread_self"),
    (Function::MutexInit, "pthread_mutex_init"),
    (Function::MutexDestroy, "pthread_mutex_destroy"),
    (Function::Lock, "pthread_mutex_lock"),
    (Function::TryLock, "pthread_mutex_trylock"),
    (Function::Unlock, "pthread_mutex_unlock"),
    (Function::ConditionInit, "pthread_cond_init"),
    (Function::ConditionDestroy, "pthread_cond_destroy"),
    (Function::Wait, "pthread_cond_wait"),
    (Function::Signal, "pthread_cond_signal"),
    (Function::Broadcast, "pthread_cond_broadcast"),
];

/// How many functions there are.
pub const FUNCTIONS: usize = TABLE.len();

impl Function {
    /// The function at a place of the call table.
    pub fn at(place: usize) -> Function
        requires { place < length functions }
        ensures { drop place functions ≡ result ∷ drop (place + 1) functions }
    {
        TABLE[place].0
    }

    /// Its name in a program's symbols.
    pub fn name(self) -> &'static str
        ensures { result.now ≡ name_of self }
    {
        TABLE[self as usize].1
    }
}
