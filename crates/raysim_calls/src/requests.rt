// What is called for a request.

ghost use Rattle.std.specs.Prelude.{◌≡◌, IfErr, IfOk};
ghost use Rattle.std.specs.Option.{option_map};
ghost use Rattle.raysim_options.specs.Reads.{AreThreads, HasCluster, IsCluster};
ghost use Rattle.raysim_calls.specs.Calls.{HasThreads, IsCallOf, IsExportCall, IsExportFault, IsFaultOf, IsLogCall, IsRunCall, IsRunFault, IsStateCall, IsStateFault};
ghost use Rattle.raysim_calls.specs.Calls.{IsWhyCall, IsWhyFault, IsWhyReplay, run_of, why_driven};
ghost use Rattle.raysim_calls.specs.Calls.{IsChoiceBy, IsFaultsCall, IsFaultsFault, IsMostBy, IsNoCount, IsNoKind};

use crate::call::{Call, CallFault, DriveCall, FaultsCall, ReplayCall, ThreadsCall, Views};
use crate::forms::{
    cluster_of, contents_of, log_form, log_views, run_form, run_views, sim_form, sim_views,
};
use crate::names::named_form;
use engine_text::Engine;
use raysim_options::{
    ExportOptions, FaultsOptions, LogOptions, Request, RunOptions, ScriptOptions, StateOptions,
    WhyOptions,
};
use run_commands::{FaultChoice, Form, choice_named};

/// A run that is driven or on threads.
fn run_of<'a>(options: &RunOptions<'a>) -> DriveCall<'a>
    requires { IsCluster options.now.nodes options.now.slots }
    ensures { result ≡ run_of options.now }
{
    DriveCall {
        script: options.script,
        explain: options.explain,
        cluster: cluster_of(options.nodes, options.slots),
        form: run_form(options),
        views: run_views(options),
        progress: options.progress,
        stream: options.stream,
    }
}

fn run_call<'a>(options: &RunOptions<'a>) -> Result<Call<'a>, CallFault<'a>>
    requires cluster { IsCluster options.now.nodes options.now.slots }
    requires threads { AreThreads options.now.threads }
    ensures called { IfOk result (IsRunCall options.now) }
    ensures at_fault { IfErr result (IsRunFault options.now) }
    ensures threads { IfOk result HasThreads }
{
    let run = run_of(options);
    if !options.on_threads {
        return Ok(Call::Drive(run));
    }
    if options.so_far {
        return Err(CallFault::SoFarOnThreads);
    }
    Ok(Call::OnThreads(ThreadsCall {
        drive: run,
        threads: options.threads,
        plan: options.plan,
        history: options.history,
    }))
}

fn log_call<'a>(options: &LogOptions<'a>) -> Call<'a>
    requires { IsCluster options.now.nodes options.now.slots }
    ensures called { IsLogCall options.now result }
    ensures threads { HasThreads result }
{
    let cluster = cluster_of(options.nodes, options.slots);
    let form = log_form(options);
    let views = log_views(options);
    match options.events {
        Some(events) => Call::Replay(
            ReplayCall {
                script: options.script,
                events,
                cluster,
                explain: options.explain,
            },
            form,
            views,
        ),
        None => Call::Drive(DriveCall {
            script: options.script,
            explain: options.explain,
            cluster,
            form,
            views,
            progress: false,
            stream: false,
        }),
    }
}

/// It is told why something is as it is in a run that is driven.
fn why_driven<'a>(options: &WhyOptions<'a>, form: Form) -> Call<'a>
    requires { IsCluster options.now.nodes options.now.slots }
    ensures called { result ≡ why_driven options.now form }
    ensures threads { HasThreads result }
{
    Call::Drive(DriveCall {
        script: options.script,
        explain: options.explain,
        cluster: cluster_of(options.nodes, options.slots),
        form,
        views: Views::none(),
        progress: false,
        stream: false,
    })
}

/// And in one by that event file.
fn why_replayed<'a>(options: &WhyOptions<'a>, events: &'a str, form: Form) -> Call<'a>
    requires { IsCluster options.now.nodes options.now.slots }
    ensures called { IsWhyReplay options.now events.now form result }
    ensures threads { HasThreads result }
{
    let replayed = ReplayCall {
        script: options.script,
        events,
        cluster: cluster_of(options.nodes, options.slots),
        explain: options.explain,
    };
    Call::Replay(replayed, form, Views::none())
}

/// The first word behind the script may be left out, and is no file where it names an object, a worker or a node.
fn why_call<'a>(options: &WhyOptions<'a>) -> Result<Call<'a>, CallFault<'a>>
    requires { IsCluster options.now.nodes options.now.slots }
    ensures called { IfOk result (IsWhyCall options.now) }
    ensures at_fault { IfErr result (IsWhyFault options.now) }
    ensures threads { IfOk result HasThreads }
{
    let contents = contents_of(options.full);
    let Some(first) = options.events else {
        return Ok(why_driven(options, Form::WhyMain(contents)));
    };
    let Some(name) = options.object else {
        return match named_form(contents, first.as_bytes()) {
            Some(form) => Ok(why_driven(options, form)),
            None => Ok(why_replayed(options, first, Form::WhyMain(contents))),
        };
    };
    match named_form(contents, name.as_bytes()) {
        Some(form) => Ok(why_replayed(options, first, form)),
        None => Err(CallFault::NoName(name)),
    }
}

/// What is tried where the words don't say.
const USUAL: FaultChoice = FaultChoice {
    kill: true,
    told_kill: true,
    kill_node: true,
    lose: true,
    evict: false,
};

/// The kinds that the words name; else the first that is the name of none.
fn choice_of<'a>(options: &FaultsOptions<'a>) -> Result<FaultChoice, &'a str>
    ensures chosen { IfOk result (IsChoiceBy (option_map (λ s. s.now) options.now.of)) }
    ensures none { IfErr result (λ word. IsNoKind (option_map (λ s. s.now) options.now.of) word.now) }
{
    match options.of {
        None => Ok(USUAL),
        Some(text) => choice_named(text),
    }
}

/// The number of lists that the words say; else what is none.
fn most_of<'a>(options: &FaultsOptions<'a>) -> Result<usize, &'a str>
    ensures counted { IfOk result (IsMostBy (option_map (λ s. s.now) options.now.most)) }
    ensures none { IfErr result (λ word. IsNoCount (option_map (λ s. s.now) options.now.most) word.now) }
{
    let Some(text) = options.most else {
        return Ok(usize::MAX);
    };
    match text.parse::<usize>() {
        Ok(most) => Ok(most),
        Err(_) => Err(text),
    }
}

fn faults_call<'a>(options: &FaultsOptions<'a>) -> Result<Call<'a>, CallFault<'a>>
    requires { IsCluster options.now.nodes options.now.slots }
    ensures called { IfOk result (IsFaultsCall options.now) }
    ensures at_fault { IfErr result (IsFaultsFault options.now) }
    ensures threads { IfOk result HasThreads }
{
    let choice = match choice_of(options) {
        Ok(choice) => choice,
        Err(word) => return Err(CallFault::NoKind(word)),
    };
    let most = match most_of(options) {
        Ok(most) => most,
        Err(text) => return Err(CallFault::NoCount(text)),
    };
    Ok(Call::Faults(FaultsCall {
        script: options.script,
        events: options.events,
        cluster: cluster_of(options.nodes, options.slots),
        choice,
        most,
        out: options.out,
        explain: options.explain,
        progress: options.progress,
    }))
}

fn export_call<'a>(options: &ExportOptions<'a>) -> Result<Call<'a>, CallFault<'a>>
    ensures called { IfOk result (IsExportCall options.now) }
    ensures at_fault { IfErr result (IsExportFault options.now) }
    ensures threads { IfOk result HasThreads }
{
    let script = ScriptOptions {
        script: options.script,
        explain: options.explain,
    };
    match options.to {
        "dask" => Ok(Call::Export(Engine::Dask, script)),
        "ray" => Ok(Call::Export(Engine::Ray, script)),
        _ => Err(CallFault::NoEngine(options.to)),
    }
}

fn state_call<'a>(options: &StateOptions<'a>) -> Result<Call<'a>, CallFault<'a>>
    requires { IsCluster options.now.nodes options.now.slots }
    ensures called { IfOk result (IsStateCall options.now) }
    ensures at_fault { IfErr result (IsStateFault options.now) }
    ensures threads { IfOk result HasThreads }
{
    let replayed = ReplayCall {
        script: options.script,
        events: options.events,
        cluster: cluster_of(options.nodes, options.slots),
        explain: options.explain,
    };
    let Some(text) = options.at else {
        return Ok(Call::Replay(replayed, Form::State, Views::none()));
    };
    match text.parse::<usize>() {
        Ok(at) => Ok(Call::StateAt(replayed, at)),
        Err(_) => Err(CallFault::NoNumber(text)),
    }
}

/// What is done for a request, with the values that it gives; else which of its words is at fault.
pub fn call_of<'a>(request: &Request<'a>) -> Result<Call<'a>, CallFault<'a>>
    requires { HasCluster request.now }
    ensures called { IfOk result (IsCallOf request.now) }
    ensures at_fault { IfErr result (IsFaultOf request.now) }
    // A run on threads is on 1 to 8 of them.
    ensures threads { IfOk result HasThreads }
{
    match request {
        Request::Check(options) => Ok(Call::Check(ScriptOptions {
            script: options.script,
            explain: options.explain,
        })),
        Request::Serial(options) => Ok(Call::Serial(ScriptOptions {
            script: options.script,
            explain: options.explain,
        })),
        Request::Sim(options) => Ok(Call::Replay(
            ReplayCall {
                script: options.script,
                events: options.events,
                cluster: cluster_of(options.nodes, options.slots),
                explain: options.explain,
            },
            sim_form(options),
            sim_views(options),
        )),
        Request::Run(options) => run_call(options),
        Request::Log(options) => Ok(log_call(options)),
        Request::Why(options) => why_call(options),
        Request::Faults(options) => faults_call(options),
        Request::Migrate(options) => Ok(Call::Migrate(ReplayCall {
            script: options.script,
            events: options.events,
            cluster: cluster_of(options.nodes, options.slots),
            explain: options.explain,
        })),
        Request::Explain(what) => Ok(Call::Explain(what)),
        Request::Export(options) => export_call(options),
        Request::State(options) => state_call(options),
    }
}
