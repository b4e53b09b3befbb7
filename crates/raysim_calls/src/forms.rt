// In which form a run is told, and what is written beside.

ghost use Rattle.std.specs.Prelude.{◌≡◌};
ghost use Rattle.raysim_options.specs.Reads.{IsCluster};
ghost use Rattle.raysim_calls.specs.Calls.{contents, log_form, log_views, report_form, run_form, run_views, sim_form, sim_views, size};

use crate::call::Views;
use log_words::Contents;
use raysim_options::{LogOptions, RunOptions, SimOptions};
use run_commands::{Cluster, Form};

/// The cluster with these numbers.
pub fn cluster_of(nodes: u8, slots: u8) -> Cluster
    requires { IsCluster nodes slots }
    ensures { result ≡ size nodes slots }
{
    let Some(cluster) = Cluster::new(nodes, slots) else {
        unreachable!();
    };
    cluster
}

/// How long lists are written.
pub fn contents_of(full: bool) -> Contents
    ensures { result ≡ contents full }
{
    if full { Contents::Whole } else { Contents::Cut }
}

/// How a report is written.
fn report_form(json: bool) -> Form
    ensures { result ≡ report_form json }
{
    if json { Form::Json } else { Form::Text }
}

/// How the report of a replay is written.
pub fn sim_form(options: &SimOptions<'_>) -> Form
    ensures { result ≡ sim_form options.now }
{
    if options.books {
        return Form::TextWithBooks;
    }
    if options.summary {
        return Form::TextWithSummary;
    }
    report_form(options.json)
}

/// How the report of a run is written.
pub fn run_form(options: &RunOptions<'_>) -> Form
    ensures { result ≡ run_form options.now }
{
    if options.summary {
        return Form::TextWithSummary;
    }
    report_form(options.json)
}

/// How a log is told.
pub fn log_form(options: &LogOptions<'_>) -> Form
    ensures { result ≡ log_form options.now }
{
    let contents = contents_of(options.full);
    if options.messages {
        return Form::LogWithMessages(contents);
    }
    Form::Log(contents)
}

/// What is written of a replay beside its report.
pub fn sim_views<'a>(options: &SimOptions<'a>) -> Views<'a>
    ensures { result ≡ sim_views options.now }
{
    Views {
        timeline: options.timeline,
        lineage: options.lineage,
        page: options.page,
        contents: contents_of(options.full),
        so_far: options.so_far,
    }
}

/// What is written of a run beside its report.
pub fn run_views<'a>(options: &RunOptions<'a>) -> Views<'a>
    ensures { result ≡ run_views options.now }
{
    Views {
        timeline: options.timeline,
        lineage: options.lineage,
        page: options.page,
        contents: contents_of(options.full),
        so_far: options.so_far,
    }
}

/// What is written beside a log.
pub fn log_views<'a>(options: &LogOptions<'a>) -> Views<'a>
    ensures { result ≡ log_views options.now }
{
    Views {
        timeline: None,
        lineage: None,
        page: options.page,
        contents: contents_of(options.full),
        so_far: false,
    }
}
